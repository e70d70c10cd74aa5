// The rules of the fields (6), asked of the component at a place.
ghost use Rattle.std.specs.Prelude.{◌≡◌, ◌+◌, ◌*◌, ◌≤◌, length};
ghost use Rattle.lists.specs.Tests.{every, each};
ghost use Rattle.bytes_le.specs.Numbers.{u16_at, u32_at, u64_at, i32_at};
ghost use Rattle.layout.specs.Fields.{first_target_ok, target_ok, fields_ok};
ghost use Rattle.page.specs.Form.{component_end};
ghost use Rattle.page.specs.Content.{objects_at, component_at};

use bytes_le::LittleEndian;
use layout::fields;
use layout::fields::StripeFields;

// The stripe fields and the extension size of the component at the place.
fn stripe_fields_at(s: &[u8], at: usize) -> StripeFields
    requires { at + 40 ≤ length s.now }
    ensures { let b = s.now in
        (result.count ≡ u16_at b (at + 6))
        × (result.size ≡ u32_at b (at + 8))
        × (result.extension ≡ u64_at b (at + 32)) }
{
    StripeFields {
        count: u16::read_at(s, at + 6),
        size: u32::read_at(s, at + 8),
        extension: u64::read_at(s, at + 32),
    }
}

// Is the first target -1, or, if the component is init, that of the first of its n object records?
fn first_target_ok(s: &[u8], at: usize, init: bool, n: usize) -> bool
    requires { at + 40 + 16 * n ≤ length s.now }
    ensures { let b = s.now in
        result ≡ first_target_ok init (i32_at b (at + 12)) (objects_at n b (at + 40)) }
{
    let first = i32::read_at(s, at + 12);
    if !init {
        return fields::is_minus_one(first);
    }
    if n == 0 {
        return false;
    }
    fields::is_target(first, u32::read_at(s, at + 44))
}

// Are the targets of the n object records from the place on at most 65,534?
fn targets_ok(s: &[u8], at: usize, n: usize) -> bool
    requires { at + 16 * n ≤ length s.now }
    ensures { result ≡ every (each target_ok (objects_at n s.now at)) }
{
    (0..n).all(|i| u32::read_at(s, at + 16 * i + 4) <= 65534)
}

// Does the component at the place keep the rules of the fields?
pub fn fields_ok(s: &[u8], at: usize) -> bool
    requires { component_end s.now at ≤ length s.now }
    ensures { result ≡ fields_ok (component_at s.now at) }
{
    let n = crate::record_count(s, at);
    let c = crate::neighbours::neighbour_at(s, at);
    let stripes = stripe_fields_at(s, at);
    (1 <= u16::read_at(s, at + 4))
        & (c.begin <= c.end)
        & !(c.init & c.extension)
        & fields::kind_ok(c, stripes)
        & first_target_ok(s, at, c.init, n)
        & targets_ok(s, at + 40, n)
        & fields::has_count(c.init, stripes.count, n)
}
