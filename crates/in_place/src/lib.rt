// What is at places in the bytes of pages: the component rules are asked of the bytes themselves, with no component
// copied out; and if a layout is wanted, it is built from the places.
#![tactic(auto)]

ghost use Rattle.std.specs.Prelude.{◌≡◌, ◌≤◌, min, length};
ghost use Rattle.page.specs.Form.{records_at, component_end};

pub mod distinct;
pub mod fields;
pub mod neighbours;
pub mod whole;

// The number of object records of the component at the place, at most 16.
pub fn record_count(s: &[u8], at: usize) -> usize
    requires { component_end s.now at ≤ length s.now }
    ensures { (result ≡ min 16 (records_at s.now at))
        × (result ≤ 16)
        × (result ≤ records_at s.now at) }
{
    page::form::record_count(s, at).min(16)
}
