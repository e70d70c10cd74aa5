// The records of a layout and the rules that they keep.
#![tactic(auto)]

ghost use Rattle.std.specs.Prelude.{◌≡◌, true, ◌≤◌, length};
ghost use Rattle.lists.specs.Tests.{found};
ghost use Rattle.refusals.specs.Refusals.{number_in};
ghost use Rattle.layout.specs.Records.{view, records_of, neighbour_of, outline_of, no_layout, packed};
ghost use Rattle.layout.specs.Neighbours.{is_empty};
ghost use Rattle.layout.specs.Rules.{later_rule_broken, rule_broken, valid};
ghost use Rattle.layout.specs.Known.{RulesKnown, Kept};
ghost use Rattle.layout.specs.Holder.{holder_of};

use components::Listed;
use refusals::Refusal;

pub mod components;
pub mod distinct;
pub mod fields;
pub mod neighbours;

// An object of the store: the target that it lies on, and its number there. Two objects are the same if both agree.
#[derive(Clone, Copy, PartialEq, Eq)]
pub struct Object {
    pub target: u32,
    pub number: u64,
}

// A component: its extent [begin, end) in bytes of the file, how it is striped, and, if it is init, an object record
// for each stripe in the first places of `objects`.
#[derive(Clone, Copy)]
pub struct Component {
    pub init: bool,
    pub extension: bool,
    pub id: u16,
    pub stripe_count: u16,
    pub stripe_size: u32,
    pub first_target: i32,
    pub begin: u64,
    pub end: u64,
    pub extension_size: u64,
    pub objects: [Object; 16],
}

impl Component {
    // The object records of the component, in stripe order: as many as its stripe count says if it is init, at most 16.
    pub fn objects(&self) -> &[Object]
        ensures { result.now ≡ records_of self.now }
    {
        &self.objects[..fields::record_count(*self)]
    }
}

// A component as the neighbour rules see it: its extent [begin, end) and its flags.
#[derive(Clone, Copy)]
pub struct Neighbour {
    pub init: bool,
    pub extension: bool,
    pub begin: u64,
    pub end: u64,
}

impl Neighbour {
    // Is the extent empty?
    pub fn is_empty(&self) -> bool
        ensures { result ≡ is_empty self.now.begin self.now.end }
    {
        self.begin == self.end
    }
}

impl From<Component> for Neighbour {
    ghost from_gives = { λ c n. n ≡ neighbour_of c };

    fn from(c: Component) -> Self {
        Neighbour {
            init: c.init,
            extension: c.extension,
            begin: c.begin,
            end: c.end,
        }
    }
}

// A layout: its components are in the first `count` places, in the order of the file. `complete` says that these are
// all of them: no pages are outstanding. A layout that is not complete is not valid.
#[derive(Clone, Copy)]
pub struct Layout {
    pub generation: u32,
    pub count: usize,
    pub components: [Component; 16],
    pub complete: bool,
}

impl Layout {
    // The components of the layout, in the order of the file.
    pub fn components(&self) -> &[Component]
        requires { self.now.count ≤ 16 }
        ensures { result.now ≡ view self.now }
    {
        &self.components[..self.count]
    }
}

// What is in the unused places of an object array.
pub const NO_OBJECT: Object = Object {
    target: 0,
    number: 0,
};

const NO_COMPONENT: Component = Component {
    init: false,
    extension: false,
    id: 0,
    stripe_count: 0,
    stripe_size: 0,
    first_target: 0,
    begin: 0,
    end: 0,
    extension_size: 0,
    objects: [NO_OBJECT; 16],
};

const NO_NEIGHBOUR: Neighbour = Neighbour {
    init: false,
    extension: false,
    begin: 0,
    end: 0,
};

// The blank layout: it has no components and is not complete, and its places are blank.
#[tactic(auto, unfolding(crate::specs::Records::pack_components))]
pub fn no_layout() -> Layout
    ensures { result ≡ no_layout }
{
    Layout {
        generation: 0,
        count: 0,
        components: [NO_COMPONENT; 16],
        complete: false,
    }
}

// The complete layout of a generation and at most 16 components; the rest of its places blank. Every layout with
// components that is given back is made here.
pub fn pack(generation: u32, components: &[Component]) -> Layout
    requires { length components.now ≤ 16 }
    ensures { result ≡ packed generation components.now }
{
    let mut places = [NO_COMPONENT; 16];
    places[..components.len()].copy_from_slice(components);
    Layout {
        generation,
        count: components.len(),
        components: places,
        complete: true,
    }
}

// What the rules beside those of the fields ask of components, in the first places: what the neighbour rules see, and
// the ids.
#[derive(Clone, Copy)]
pub struct Outline {
    pub neighbours: [Neighbour; 16],
    pub ids: [u16; 16],
}

// The outline of at most 16 components; the rest of its places blank.
pub fn outline_of(components: &[Component]) -> Outline
    requires { length components.now ≤ 16 }
    ensures { result ≡ outline_of components.now }
{
    let mut neighbours = [NO_NEIGHBOUR; 16];
    let mut ids = [0; 16];
    for (i, c) in components.iter().enumerate() {
        neighbours[i] = (*c).into();
        ids[i] = c.id;
    }
    Outline { neighbours, ids }
}

// Do the components keep the rules of neighbours and of distinctness, asked in this order?
fn check_later_rules(components: &[Component], more: bool, from: usize) -> Result<(), Refusal>
    requires { Kept from components.now }
    ensures { number_in result ≡ later_rule_broken more components.now }
{
    let n = components.len();
    let outline = outline_of(components);
    if !neighbours::neighbours_hold(&outline.neighbours[..n], more, from) {
        return Err(Refusal::Neighbours);
    }
    if distinct::id_fault(&outline.ids[..n], from).is_some() {
        return Err(Refusal::Distinctness);
    }
    if !distinct::objects_differ(&Listed { components }, from) {
        return Err(Refusal::Distinctness);
    }
    Ok(())
}

// Do the layout's components keep the component rules? If not, the refusal is the first of fields, neighbours and
// distinctness whose rule they break. `more` says that pages are outstanding. The first `from` components are known to
// break no rule with pages outstanding, and only the rest is asked.
pub fn check_rules_from(l: Layout, more: bool, from: usize) -> Result<(), Refusal>
    requires { RulesKnown from l }
    ensures { number_in result ≡ rule_broken more (view l) }
{
    let components = l.components();
    if fields::field_fault(components, from).is_some() {
        return Err(Refusal::Fields);
    }
    check_later_rules(components, more, from)
}

// The same, if nothing is known of the components.
pub fn check_rules(l: Layout, more: bool) -> Result<(), Refusal>
    requires { l.count ≤ 16 }
    ensures { number_in result ≡ rule_broken more (view l) }
{
    check_rules_from(l, more, 0)
}

// Is the layout valid: does refusal 1 not apply to it?
pub fn is_valid(l: Layout) -> bool
    ensures { result ≡ valid l }
{
    l.complete && 1 <= l.count && l.count <= 16 && check_rules(l, false).is_ok()
}

// The position of the component that holds the file byte, or `None` if none does.
pub fn holder(l: Layout, offset: u64) -> Option<usize>
    requires { valid l ≡ true }
    ensures { result ≡ found (holder_of offset (view l)) l.count }
{
    l.components().iter().position(|c| offset < c.end)
}
