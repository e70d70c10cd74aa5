// Where file bytes are in the store, by components at places in the bytes of pages: the home of a byte, the byte of a
// home, and requests cut into pieces. No layout is built: what is asked for is read from the bytes.
#![tactic(auto)]

ghost use Rattle.std.specs.Prelude.{◌≡◌, length};
ghost use Rattle.layout.specs.Rows.{object_of};
ghost use Rattle.in_place.specs.Places.{components_at, ValidAt};
ghost use Rattle.mapping.specs.Homes.{in_object};
ghost use Rattle.mapping.specs.Lookup.{lookup_says, lookup_in};
ghost use Rattle.mapping.specs.Back.{back_says, back_in};
ghost use Rattle.mapping.specs.Cutting.{cut_says, cut_in, cut_refusal, cut_pieces, room_after};

use bytes_le::{LittleEndian, flags};
use layout::Object;
use mapping::components::Components;
use mapping::{ObjectHome, Span};
use refusals::Refusal;

// The components of a valid layout, at places in the bytes of pages.
#[derive(Clone, Copy)]
pub struct Placed<'a> {
    pub pages: &'a [u8],
    pub places: &'a [usize],
    ghost valid: { ValidAt pages.now (length places.now) places.now },
}

impl<'a> Components for Placed<'a> {
    ghost list = { λ c. components_at c.pages.now c.places.now };

    fn count(&self) -> usize {
        self.places.len()
    }

    fn end(&self, i: usize) -> u64 {
        u64::read_at(self.pages, self.places[i] + 24)
    }

    fn span(&self, i: usize) -> Span {
        let at = self.places[i];
        Span {
            init: flags::is_set(u16::read_at(self.pages, at + 2), 0),
            id: u16::read_at(self.pages, at + 4),
            begin: u64::read_at(self.pages, at + 16),
            end: u64::read_at(self.pages, at + 24),
            stripe_count: u16::read_at(self.pages, at + 6),
            stripe_size: u32::read_at(self.pages, at + 8),
        }
    }

    fn object(&self, i: usize, stripe: u16) -> Object {
        let at = self.places[i];
        page::decode::object_at(self.pages, at + 40 + 16 * (stripe as usize))
    }

    fn stripe(&self, i: usize, object: Object) -> Option<usize> {
        let at = self.places[i];
        for j in 0..in_place::record_count(self.pages, at) {
            if page::decode::object_at(self.pages, at + 40 + 16 * j) == object {
                return Some(j);
            }
        }
        None
    }

    ghost use Rattle.placed_mapping.specs.PlacedLaws.{placed_valid};

    ghost valid = { λ c. placed_valid c.pages.now c.places.now c.valid };
}

impl<'a> Placed<'a> {
    // The home of a file byte. Refused by 10 if the byte lies at or past the last component's end, and by 11 if it
    // lies in a component that is not init.
    pub fn lookup(&self, offset: u64) -> Result<ObjectHome, Refusal>
        ensures { lookup_says result
            ≡ lookup_in offset (components_at self.now.pages.now self.now.places.now) }
    {
        mapping::homes::lookup_in(self, offset)
    }

    // The file byte of byte `byte` of the object. Refused by 13 if the object is not in the layout, and by 14 if that
    // byte of it is no byte of its component.
    pub fn back(&self, object: Object, byte: u64) -> Result<u64, Refusal>
        ensures { back_says result
            ≡ back_in (in_object object byte) (components_at self.now.pages.now self.now.places.now) }
    {
        mapping::objects::back_in(self, object, byte)
    }

    // Cuts the request of `bytes` bytes from `offset` at every component border and at every multiple of the
    // component's stripe size, and writes five numbers a piece, in file order, into the first of the lent numbers; the
    // others stay. Refused by 9 if offset + bytes is above 2^64 - 1, 10 if a byte asked for lies at or past the last
    // component's end, 11 if one lies in a component that is not init, 12 if there are more pieces than 256 or than a
    // fifth of the lent numbers: all of them then stay.
    pub fn cut(&self, offset: u64, bytes: u64, room: &mut [u64]) -> Result<u64, Refusal>
        ensures { let lent = room.old in
            let cs = components_at self.now.pages.now self.now.places.now in
            (cut_says result ≡ cut_in offset bytes (length lent) cs)
            × (room.new
            ≡ room_after (cut_refusal offset bytes (length lent) cs) (cut_pieces offset bytes cs) lent) }
    {
        mapping::cutting::cut_in(self, offset, bytes, room)
    }
}
