// Distinctness (8), asked of components at places.
ghost use Rattle.std.specs.Prelude.{◌≡◌, ◌+◌, ◌*◌, ◌≤◌, length};
ghost use Rattle.std.proofs.lemmas.List.Edits.{sets};
ghost use Rattle.lists.specs.Tests.{every};
ghost use Rattle.layout.specs.Records.{records_of, records_in};
ghost use Rattle.layout.specs.Distinct.{id_tests, object_tests, distinct_hold};
ghost use Rattle.page.specs.Form.{component_end};
ghost use Rattle.page.specs.Content.{component_at};
ghost use Rattle.in_place.specs.Places.{components_at, Within};

use bytes_le::LittleEndian;
use layout::Object;
use layout::components::Components;

// Components at places in the bytes.
#[derive(Clone, Copy)]
struct Placed<'a> {
    bytes: &'a [u8],
    places: &'a [usize],
    ghost within: { Within bytes.now (length places.now) places.now },
}

impl<'a> Components for Placed<'a> {
    ghost list = { λ c. components_at c.bytes.now c.places.now };

    fn count(&self) -> usize {
        self.places.len()
    }

    fn records(&self, i: usize) -> usize {
        crate::record_count(self.bytes, self.places[i])
    }

    fn record(&self, i: usize, j: usize) -> Object {
        page::decode::object_at(self.bytes, self.places[i] + 40 + 16 * j)
    }
}

// Do the ids of the components at the places differ?
fn ids_differ(s: &[u8], places: &[usize]) -> bool
    requires { (length places.now ≤ 16) × Within s.now (length places.now) places.now }
    ensures { result ≡ every (id_tests (components_at s.now places.now)) }
{
    let mut ids = [0; 16];
    for (i, at) in places.iter().enumerate() {
        ids[i] = u16::read_at(s, *at + 4);
    }
    layout::distinct::id_fault(&ids[..places.len()], 0).is_none()
}

// Do the components at the places keep the rule of distinctness?
#[tactic(auto, unfolding(layout::specs::Distinct::distinct_hold))]
pub fn distinct(s: &[u8], places: &[usize]) -> bool
    requires { (length places.now ≤ 16) × Within s.now (length places.now) places.now }
    ensures { result ≡ distinct_hold (components_at s.now places.now) }
{
    let components = Placed { bytes: s, places };
    ids_differ(s, places) && layout::distinct::objects_differ(&components, 0)
}
