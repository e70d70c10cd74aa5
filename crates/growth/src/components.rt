// Single components, as the steps of growth change them.
ghost use Rattle.std.specs.Prelude.{◌≡◌, ◌≤◌, eqb, get_or, length};
ghost use Rattle.lists.specs.Counting.{elem};
ghost use Rattle.layout.specs.Records.{no_object, ids_of};
ghost use Rattle.growth_rules.specs.Parts.{with_extent, init_with, repeat_base, reach, fresh_id};

use layout::{Component, Object};

// The component with another extent.
pub fn with_extent(c: Component, begin: u64, end: u64) -> Component
    ensures { result ≡ with_extent begin end c }
{
    Component { begin, end, ..c }
}

// The component made init, on the chosen objects.
pub fn init_with(c: Component, objects: [Object; 16]) -> Component
    requires { (get_or objects 0 no_object).target ≤ 65534 }
    ensures { result ≡ init_with objects c }
{
    Component {
        init: true,
        first_target: objects[0].target as i32,
        objects,
        ..c
    }
}

// The component that repeats c, before its targets are chosen: with another id and begin.
pub fn repeat_base(c: Component, id: u16, begin: u64) -> Component
    ensures { result ≡ repeat_base id begin c }
{
    Component {
        extension: false,
        id,
        begin,
        extension_size: 0,
        ..c
    }
}

// The lower of `from` + the size of the extension and its end. The sum may be 2^64 or above: the end is lower then.
pub fn reach(from: u64, x: Component) -> u64
    ensures { result ≡ reach from x }
{
    x.end.min(from.saturating_add(x.extension_size))
}

// Does one of the components have this id?
fn has_id(components: &[Component], id: u16) -> bool
    ensures { result ≡ elem eqb id (ids_of components.now) }
{
    components.iter().any(|c| id == c.id)
}

// The smallest id from 1 that none of the components has. They leave one of the first n + 1 ids free if they are n.
pub fn fresh_id(components: &[Component]) -> u16
    requires { length components.now ≤ 16 }
    ensures { result ≡ fresh_id (ids_of components.now) }
{
    let after = components.len() as u16 + 1;
    (1..after)
        .find(|id| !has_id(components, *id))
        .unwrap_or(after)
}
