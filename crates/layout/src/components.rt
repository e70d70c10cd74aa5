// Components, wherever they are kept: in memory, or at places in the bytes of pages.
ghost use Rattle.std.specs.Prelude.{◌≡◌, ◌<◌, ◌≤◌, List, length, get_or};
ghost use Rattle.layout.specs.declared.Component.{Component};
ghost use Rattle.layout.specs.Records.{no_object, no_component, records_of};

use crate::Object;

// Components in the order of the file. What is asked of them is read where they are.
pub trait Components {
    ghost list: { Self → List Component };

    // How many there are.
    fn count(&self) -> usize
        ensures { result ≡ length (list self.now) };

    // How many object records the component at a position has.
    fn records(&self, i: usize) -> usize
        requires { i < length (list self.now) }
        ensures { (result ≡ length (records_of (get_or (list self.now) i no_component)))
            × (result ≤ 16) };

    // One of its object records.
    fn record(&self, i: usize, j: usize) -> Object
        requires place { i < length (list self.now) }
        requires record { j < length (records_of (get_or (list self.now) i no_component)) }
        ensures { result
            ≡ get_or (records_of (get_or (list self.now) i no_component)) j no_object };
}

// Components in memory.
#[derive(Clone, Copy)]
pub struct Listed<'a> {
    pub components: &'a [crate::Component],
}

impl<'a> Components for Listed<'a> {
    ghost list = { λ c. c.components.now };

    fn count(&self) -> usize {
        self.components.len()
    }

    fn records(&self, i: usize) -> usize {
        crate::fields::record_count(self.components[i])
    }

    fn record(&self, i: usize, j: usize) -> Object {
        self.components[i].objects()[j]
    }
}
