// The components of a layout in memory.
ghost use Rattle.std.specs.Prelude.{◌≡◌, true};
ghost use Rattle.layout.specs.Records.{view};
ghost use Rattle.layout.specs.Rules.{valid};
ghost use Rattle.mapping.specs.Components.{AreValid};

use crate::Span;
use crate::components::Components;
use crate::objects::position_in;
use layout::{Component, Layout, Object};

// The components of a valid layout in memory.
#[derive(Clone, Copy)]
pub struct Listed<'a> {
    pub components: &'a [Component],
    ghost valid: { AreValid components.now },
}

impl<'a> Listed<'a> {
    // The components of the layout.
    pub fn new(l: &'a Layout) -> Listed<'a>
        requires { valid l.now ≡ true }
        ensures { result.components.now ≡ view l.now }
    {
        Listed {
            components: l.components(),
        }
    }
}

impl<'a> Components for Listed<'a> {
    ghost list = { λ s. s.components.now };

    fn count(&self) -> usize {
        self.components.len()
    }

    fn end(&self, i: usize) -> u64 {
        self.components[i].end
    }

    fn span(&self, i: usize) -> Span {
        Span::from(&self.components[i])
    }

    fn object(&self, i: usize, stripe: u16) -> Object {
        self.components[i].objects()[stripe as usize]
    }

    fn stripe(&self, i: usize, object: Object) -> Option<usize> {
        position_in(self.components[i].objects(), object)
    }

    ghost valid = { λ s. s.valid };
}
