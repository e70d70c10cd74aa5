// What lookup, the way back and cutting ask of the components of a layout.
ghost use Rattle.std.specs.Prelude.{◌≡◌, ◌<◌, List, length, get_or};
ghost use Rattle.lists.specs.Tests.{found};
ghost use Rattle.layout.specs.declared.Component.{Component};
ghost use Rattle.layout.specs.Records.{no_object, no_component, records_of};
ghost use Rattle.mapping.specs.Back.{position_in};
ghost use Rattle.mapping.specs.Components.{AreValid};
ghost use Rattle.mapping.specs.Spans.{span_of};

use crate::Span;
use layout::Object;

// The components of a valid layout, wherever they are kept. What is asked of them is read where they are.
pub trait Components {
    ghost list: { Self → List Component };

    // How many there are.
    fn count(&self) -> usize
        ensures { result ≡ length (list self.now) };

    // Where the component at a position ends.
    fn end(&self, i: usize) -> u64
        requires { i < length (list self.now) }
        ensures { result ≡ (get_or (list self.now) i no_component).end };

    // The component at a position, its object records left out.
    fn span(&self, i: usize) -> Span
        requires { i < length (list self.now) }
        ensures { result ≡ span_of (get_or (list self.now) i no_component) };

    // The object record of a stripe of the component at a position.
    fn object(&self, i: usize, stripe: u16) -> Object
        requires place { i < length (list self.now) }
        requires stripe { stripe < length (records_of (get_or (list self.now) i no_component)) }
        ensures { result
            ≡ get_or (records_of (get_or (list self.now) i no_component)) stripe no_object };

    // The stripe of an object by the component at a position: that of its first object record that names the object.
    fn stripe(&self, i: usize, object: Object) -> Option<usize>
        requires { i < length (list self.now) }
        ensures { let os = records_of (get_or (list self.now) i no_component) in
            result ≡ found (position_in object os) (length os) };

    ghost valid: { (c : Self) → AreValid (list c) };
}
