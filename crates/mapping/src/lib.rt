// Where file bytes are in the store: the home of a byte, the byte of a home, and requests cut into pieces. Offsets,
// lengths and bytes are counted in bytes; a file byte from the file's start, an object byte from its object's.
#![tactic(auto)]

ghost use Rattle.std.specs.Prelude.{◌≡◌, length};
ghost use Rattle.layout.specs.Records.{view};
ghost use Rattle.layout.specs.Rows.{object_of};
ghost use Rattle.mapping.specs.Answers.{checked};
ghost use Rattle.mapping.specs.Homes.{in_object};
ghost use Rattle.mapping.specs.Lookup.{lookup_says, lookup_of};
ghost use Rattle.mapping.specs.Back.{back_says, back_of};
ghost use Rattle.mapping.specs.Cutting.{cut_says, cut_of, cut_refusal, cut_pieces, room_after};

use layout::{Component, Layout, Object};
use refusals::Refusal;

pub mod components;
pub mod cutting;
pub mod homes;
mod listed;
pub mod objects;
mod spans;
pub mod units;

// The home of a file byte in an object: the object's target and its number there, and the byte of the object.
#[derive(Clone, Copy)]
pub struct ObjectHome {
    pub target: u32,
    pub number: u64,
    pub byte: u64,
}

// A component as cutting sees it: its init flag, its id, its extent [begin, end) and its striping.
#[derive(Clone, Copy)]
pub struct Span {
    pub init: bool,
    pub id: u16,
    pub begin: u64,
    pub end: u64,
    pub stripe_count: u16,
    pub stripe_size: u32,
}

impl From<&Component> for Span {
    ghost use Rattle.mapping.specs.Spans.{span_of};

    ghost from_gives = { λ c s. s ≡ span_of c.now };

    fn from(c: &Component) -> Span {
        Span {
            init: c.init,
            id: c.id,
            begin: c.begin,
            end: c.end,
            stripe_count: c.stripe_count,
            stripe_size: c.stripe_size,
        }
    }
}

// A piece of a request: its first file byte and its length, the id of its component, the stripe, counted from 0, and
// the byte of that stripe's object at which the piece begins.
#[derive(Clone, Copy)]
pub struct Piece {
    pub offset: u64,
    pub length: u64,
    pub id: u64,
    pub stripe: u64,
    pub byte: u64,
}

// The home of a file byte. Refused by 1 if the layout is not valid, 10 if the byte lies at or past the last
// component's end, 11 if it lies in a component that is not init.
pub fn lookup(l: Layout, offset: u64) -> Result<ObjectHome, Refusal>
    ensures { lookup_says result ≡ lookup_of offset l }
{
    if !layout::is_valid(l) {
        return Err(Refusal::NotValid);
    }
    homes::lookup_valid(l, offset)
}

// The file byte whose home is a byte of the object with this target and number. Refused by 1 if the layout is not
// valid, 13 if the object is not in it, 14 if that byte of the object is no byte of its component.
pub fn back(l: Layout, target: u32, number: u64, byte: u64) -> Result<u64, Refusal>
    ensures { back_says result ≡ back_of (in_object (object_of target number) byte) l }
{
    if !layout::is_valid(l) {
        return Err(Refusal::NotValid);
    }
    objects::back_valid(l, Object { target, number }, byte)
}

// Cuts the request of `bytes` bytes from `offset` at every component border and at every multiple of the component's
// stripe size, and writes five numbers a piece, in file order, into the first of the lent numbers; the others stay.
// Refused by 1 if the layout is not valid, 9 if offset + bytes is above 2^64 - 1, 10 if a byte asked for lies
// at or past the last component's end, 11 if one lies in a component that is not init, 12 if there are more
// pieces than 256 or than a fifth of the lent numbers: all of them then stay.
pub fn cut(l: Layout, offset: u64, bytes: u64, room: &mut [u64]) -> Result<u64, Refusal>
    ensures { let lent = room.old in
        (cut_says result ≡ cut_of offset bytes (length lent) l)
        × (room.new
        ≡ room_after
        (checked l (cut_refusal offset bytes (length lent) (view l)))
        (cut_pieces offset bytes (view l))
        lent) }
{
    if !layout::is_valid(l) {
        return Err(Refusal::NotValid);
    }
    cutting::cut_valid(l, offset, bytes, room)
}
