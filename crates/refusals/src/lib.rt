// The refusals of the library's calls, and their numbers.
#![tactic(auto)]

ghost use Rattle.std.specs.Prelude.{◌≡◌, Some, decimal};
ghost use Rattle.refusals.specs.Refusals.{number_of};

use std::fmt;

// Why a call refuses. The discriminants are the numbers of the table of refusals.
#[derive(Clone, Copy, PartialEq, Eq)]
pub enum Refusal {
    // a layout or collector handed in breaks the rules, or a layout is not complete
    NotValid = 1,
    // a page is given to a complete collector
    AfterLastPage = 2,
    // the bytes of a page are not of the form of a page
    Form = 3,
    // the page number is not the next, or the generation is not that of page 0; on writing, there is no such page
    PageNumber = 4,
    // there are more than 16 components
    Over16 = 5,
    // a component breaks the rules of its fields
    Fields = 6,
    // components break the rules of neighbours
    Neighbours = 7,
    // two components share an id, or two object records name the same target and number
    Distinctness = 8,
    // offset + length is above 2^64 - 1
    RequestEnd = 9,
    // a byte asked for lies at or past the last component's end
    PastEnd = 10,
    // a byte asked for lies in a component that is not init
    NotInit = 11,
    // there are more pieces than 256 or than the lent room
    Pieces = 12,
    // the object is not in the layout
    NoObject = 13,
    // the object byte is hidden: its file offset is outside its component, or not below 2^64
    Hidden = 14,
    // the free table is bad
    Table = 15,
    // too few targets are usable
    TooFewTargets = 16,
    // growth would leave 17 components
    GrownOver16 = 17,
    // a chosen target and number are in the layout already
    ObjectInLayout = 18,
    // a change is due and the generation is 2^32 - 1
    Generation = 19,
    // the buffer is shorter than the page to be written
    Buffer = 20,
}

impl Refusal {
    // The number of the refusal.
    pub fn number(self) -> u8
        ensures { result ≡ number_of self }
    {
        self as u8
    }
}

// A refusal is printed as its number.
impl fmt::Display for Refusal {
    ghost output = { λ e. Some (decimal (number_of e)) };

    fn fmt<W: fmt::Write>(&self, f: &mut fmt::Formatter<W>) -> fmt::Result {
        write!(f, "{}", self.number())
    }
}
