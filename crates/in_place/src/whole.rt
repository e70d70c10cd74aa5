// The layout whose components are at places. It is built once, in place, by a function that cannot fail.
ghost use Rattle.std.specs.Prelude.{◌≡◌, ◌≤◌, length};
ghost use Rattle.layout.specs.Records.{packed};
ghost use Rattle.in_place.specs.Places.{components_at, Within};

use layout::Layout;

// The complete layout of a generation and the components at at most 16 places; the rest of its places blank.
pub fn layout_at(s: &[u8], places: &[usize], generation: u32) -> Layout
    requires { (length places.now ≤ 16) × Within s.now (length places.now) places.now }
    ensures { result ≡ packed generation (components_at s.now places.now) }
{
    let mut out = layout::no_layout();
    for (i, at) in places.iter().enumerate() {
        out.components[i] = page::decode::component_at(s, *at);
    }
    out.generation = generation;
    out.count = places.len();
    out.complete = true;
    out
}
