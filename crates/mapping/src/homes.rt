// The home of a file byte.
ghost use Rattle.std.specs.Prelude.{◌≡◌, true, ◌<◌, length, get_or};
ghost use Rattle.stripe.specs.Stripe.{stripe_of, object_byte};
ghost use Rattle.layout.specs.declared.Component.{Component};
ghost use Rattle.layout.specs.Records.{no_component, no_object, records_of, view};
ghost use Rattle.layout.specs.Rules.{valid};
ghost use Rattle.layout.specs.Facts.{IsInit};
ghost use Rattle.mapping.specs.Lookup.{home_says, lookup_says, lookup_in};
ghost use Rattle.mapping.specs.Homes.{home_in};
ghost use Rattle.mapping.specs.Spans.{span_of};

use crate::components::Components;
use crate::listed::Listed;
use crate::{ObjectHome, Span};
use layout::{Component, Layout, Object};
use refusals::Refusal;

// The stripe and the object byte of a file byte by a component; its extent is not looked at.
fn striped(c: Span, offset: u64) -> (u16, u64)
    requires { (0 < c.stripe_size) × (0 < c.stripe_count) }
    ensures { (result.0 ≡ stripe_of c.stripe_size c.stripe_count offset)
        × (result.1 ≡ object_byte c.stripe_size c.stripe_count offset)
        × (result.0 < c.stripe_count) }
{
    let stripe = stripe::stripe_of(c.stripe_size, c.stripe_count, offset);
    let byte = stripe::object_byte(c.stripe_size, c.stripe_count, offset);
    (stripe, byte)
}

// A component, wherever it is kept, as its homes ask for it. What is asked of it is read where it is.
pub trait OneComponent {
    ghost component: { Self → Component };

    // The component, its object records left out.
    fn span(&self) -> Span
        requires { IsInit (component self.now) }
        ensures { result ≡ span_of (component self.now) };

    // The object record of a stripe.
    fn object(&self, stripe: u16) -> Object
        requires { stripe < length (records_of (component self.now)) }
        ensures { result ≡ get_or (records_of (component self.now)) stripe no_object };
}

impl OneComponent for Component {
    ghost component = { λ c. c };

    fn span(&self) -> Span {
        Span::from(self)
    }

    fn object(&self, stripe: u16) -> Object {
        self.objects()[stripe as usize]
    }
}

// The component at a position. Past the last one there is none that is init.
#[derive(Drop)]
struct ComponentAt<'a, C> {
    components: &'a C,
    i: usize,
}

impl<'a, C: Components> OneComponent for ComponentAt<'a, C> {
    ghost component = { λ c. get_or (C.list c.components.now) c.i no_component };

    fn span(&self) -> Span {
        self.components.span(self.i)
    }

    fn object(&self, stripe: u16) -> Object {
        self.components.object(self.i, stripe)
    }
}

// The home of a file byte by a component that is init; the component's extent is not looked at.
pub fn home_in<T: OneComponent>(c: &T, offset: u64) -> ObjectHome
    requires { IsInit (T.component c.now) }
    ensures { home_says result ≡ home_in (T.component c.now) offset }
{
    let (stripe, byte) = striped(c.span(), offset);
    let object = c.object(stripe);
    ObjectHome {
        target: object.target,
        number: object.number,
        byte,
    }
}

// The home of a file byte. Refused by 10 if the byte lies at or past the last component's end, and by 11 if it lies in
// a component that is not init.
pub fn lookup_in<C: Components>(components: &C, offset: u64) -> Result<ObjectHome, Refusal>
    ensures { lookup_says result ≡ lookup_in offset (C.list components.now) }
{
    for i in 0..components.count() {
        // The first component that ends above the byte holds it.
        if offset < components.end(i) {
            let c = components.span(i);
            if !c.init {
                return Err(Refusal::NotInit);
            }
            return Ok(home_in(&ComponentAt { components, i }, offset));
        }
    }
    Err(Refusal::PastEnd)
}

// The same, of a layout in memory that is known to be valid.
pub fn lookup_valid(l: Layout, offset: u64) -> Result<ObjectHome, Refusal>
    requires { valid l ≡ true }
    ensures { lookup_says result ≡ lookup_in offset (view l) }
{
    lookup_in(&Listed::new(&l), offset)
}
