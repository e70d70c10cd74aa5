// The way back: from an object and a byte of it to the file byte.
ghost use Rattle.std.specs.Prelude.{◌≡◌, true, ◌<◌, length};
ghost use Rattle.lists.specs.Tests.{found};
ghost use Rattle.stripe.specs.Stripe.{file_byte};
ghost use Rattle.layout.specs.Records.{view};
ghost use Rattle.layout.specs.Rules.{valid};
ghost use Rattle.mapping.specs.Answers.{answer};
ghost use Rattle.mapping.specs.Homes.{in_object};
ghost use Rattle.mapping.specs.Back.{position_in, hidden_refusal, back_says, back_in};

use crate::Span;
use crate::components::Components;
use crate::listed::Listed;
use layout::{Layout, Object};
use refusals::Refusal;

// The position of the first object record that names the object.
pub fn position_in(objects: &[Object], object: Object) -> Option<usize>
    ensures { result ≡ found (position_in object objects.now) (length objects.now) }
{
    objects.iter().position(|record| *record == object)
}

// The file byte of object byte p of stripe i by a component, or 14 if it is outside the component's extent or not below
// 2^64.
pub fn byte_within(c: Span, i: u16, p: u64) -> Result<u64, Refusal>
    requires { (0 < c.stripe_size) × (0 < c.stripe_count) }
    ensures { back_says result
        ≡ (let b = file_byte c.stripe_size c.stripe_count i p in answer (hidden_refusal c.begin c.end b) b) }
{
    let byte = stripe::file_byte(c.stripe_size, c.stripe_count, i, p).ok_or(Refusal::Hidden)?;
    if byte < c.begin || c.end <= byte {
        return Err(Refusal::Hidden);
    }
    Ok(byte)
}

// The file byte of byte `byte` of the object. Refused by 13 if the object is not in the layout, and by 14 if that byte
// of it is no byte of its component.
pub fn back_in<C: Components>(components: &C, object: Object, byte: u64) -> Result<u64, Refusal>
    ensures { back_says result ≡ back_in (in_object object byte) (C.list components.now) }
{
    for i in 0..components.count() {
        if let Some(stripe) = components.stripe(i, object) {
            return byte_within(components.span(i), stripe as u16, byte);
        }
    }
    Err(Refusal::NoObject)
}

// The same, of a layout in memory that is known to be valid.
pub fn back_valid(l: Layout, object: Object, byte: u64) -> Result<u64, Refusal>
    requires { valid l ≡ true }
    ensures { back_says result ≡ back_in (in_object object byte) (view l) }
{
    back_in(&Listed::new(&l), object, byte)
}
