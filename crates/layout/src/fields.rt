// The fields of one component (refusal 6).
ghost use Rattle.std.specs.Prelude.{◌≡◌, ◌≤◌, eqb, length, take};
ghost use Rattle.lists.specs.Tests.{every, each, first_failed, found};
ghost use Rattle.layout.specs.Records.{count_of, records_of};
ghost use Rattle.layout.specs.Fields.{nonzero_multiple, extension_ok, striped_ok, kind_ok, is_minus_one, is_target};
ghost use Rattle.layout.specs.Fields.{first_target_ok, target_ok, fields_ok, field_tests};
ghost use Rattle.layout.specs.Known.{Passed};

use crate::{Component, Neighbour, Object};

// The stripe fields of a component, and its extension size.
#[derive(Clone, Copy)]
pub struct StripeFields {
    pub count: u16,
    pub size: u32,
    pub extension: u64,
}

// Is n a nonzero multiple of 65,536?
#[tactic(auto, unfolding(crate::specs::Fields::nonzero_multiple))]
pub fn nonzero_multiple(n: u64) -> bool
    ensures { result ≡ nonzero_multiple n }
{
    0 < n && n % 65536 == 0
}

// Are these the stripe fields of an extension with this extent?
#[tactic(auto, unfolding(crate::specs::Fields::extension_ok))]
pub fn extension_ok(c: Neighbour, fields: StripeFields) -> bool
    ensures { result ≡ extension_ok c.begin c.end fields.count fields.size fields.extension }
{
    c.begin < c.end && fields.count == 0 && fields.size == 0 && nonzero_multiple(fields.extension)
}

// Are these the stripe fields of a component that is not an extension, with this extent?
#[tactic(auto, unfolding(crate::specs::Fields::striped_ok))]
pub fn striped_ok(c: Neighbour, fields: StripeFields) -> bool
    ensures { result ≡ striped_ok c.init c.begin c.end fields.count fields.size fields.extension }
{
    1 <= fields.count
        && fields.count <= 16
        && nonzero_multiple(fields.size.into())
        && fields.extension == 0
        && (!c.init || c.begin < c.end)
}

// Are these the stripe fields of a component of its kind?
#[tactic(auto, unfolding(crate::specs::Fields::kind_ok))]
pub fn kind_ok(c: Neighbour, fields: StripeFields) -> bool
    ensures { result
        ≡ kind_ok c.extension c.init c.begin c.end fields.count fields.size fields.extension }
{
    if c.extension {
        extension_ok(c, fields)
    } else {
        striped_ok(c, fields)
    }
}

// Is the signed number -1?
pub fn is_minus_one(z: i32) -> bool
    ensures { result ≡ is_minus_one z }
{
    z == -1
}

// Is the signed number this target?
pub fn is_target(z: i32, target: u32) -> bool
    ensures { result ≡ is_target z target }
{
    i64::from(z) == i64::from(target)
}

// How many object records the component's array holds: its stripe count if it is init, at most 16.
pub fn record_count(c: Component) -> usize
    ensures { (result ≤ 16)
        × (length c.objects ≡ 16)
        × (result ≡ length (records_of c))
        × (take result c.objects ≡ records_of c) }
{
    if c.init {
        usize::from(c.stripe_count).min(16)
    } else {
        0
    }
}

// Is the first target -1, or, if the component is init, that of the first object record?
pub fn first_target_ok(c: Component) -> bool
    ensures { result ≡ first_target_ok c.init c.first_target (records_of c) }
{
    if !c.init {
        return is_minus_one(c.first_target);
    }
    c.objects()
        .first()
        .is_some_and(|o| is_target(c.first_target, o.target))
}

// Are the targets of the object records at most 65,534?
pub fn targets_ok(objects: &[Object]) -> bool
    ensures { result ≡ every (each target_ok objects.now) }
{
    objects.iter().all(|o| o.target <= 65534)
}

// Does the component keep the rules of the fields?
#[tactic(auto, unfolding(crate::specs::Fields::fields_ok))]
pub fn fields_ok(c: Component) -> bool
    ensures { result ≡ fields_ok c }
{
    let fields = StripeFields {
        count: c.stripe_count,
        size: c.stripe_size,
        extension: c.extension_size,
    };
    1 <= c.id
        && c.begin <= c.end
        && !(c.init && c.extension)
        && kind_ok(c.into(), fields)
        && first_target_ok(c)
        && targets_ok(c.objects())
        && has_count(c.init, c.stripe_count, c.objects().len())
}

// Are there n object records, as the flag and the stripe count say?
pub fn has_count(init: bool, stripe_count: u16, n: usize) -> bool
    ensures { result ≡ eqb n (count_of init stripe_count) }
{
    n == if init { stripe_count.into() } else { 0 }
}

// The position of the first component that breaks the rules of the fields. The first `from` are known to keep them.
pub fn field_fault(components: &[Component], from: usize) -> Option<usize>
    requires { Passed from (length components.now) (field_tests components.now) }
    ensures { result ≡ found (first_failed (field_tests components.now)) (length components.now) }
{
    let i = components[from..].iter().position(|c| !fields_ok(*c))?;
    Some(from + i)
}
