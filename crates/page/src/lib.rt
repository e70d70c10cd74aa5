// One page: its form, what it says, and how it is written. A page is walked once: the walk checks the form and notes
// the places of the components; what is at a place is then decoded with no further test.
#![tactic(auto)]

ghost use Rattle.std.specs.Prelude.{◌≡◌, ◌≤◌, length};
ghost use Rattle.std.proofs.lemmas.List.Edits.{sets};

use bytes_le::{LittleEndian, flags};

pub mod decode;
pub mod encode;
pub mod form;

// "Each record starts with a two-byte mark": 4F 42, 43 50 and 50 48, as little-endian numbers.
const OBJECT_MARK: u16 = 0x424F;

const COMPONENT_MARK: u16 = 0x5043;

const PAGE_MARK: u16 = 0x4850;

// What the head of a page says: whether more pages follow, the page's number, how many components it has, and the
// layout's generation.
#[derive(Clone, Copy)]
pub struct Head {
    pub more: bool,
    pub number: u16,
    pub count: u16,
    pub generation: u32,
}

impl Head {
    ghost use Rattle.page.specs.Content.{head_of};
    ghost use Rattle.page.specs.Bytes.{head_bytes};

    // What the head of the page says that the bytes begin with.
    #[tactic(auto, unfolding(crate::specs::Content::head_of))]
    pub fn read(page: &[u8]) -> Head
        requires { 16 ≤ length page.now }
        ensures { result ≡ head_of page.now }
    {
        Head {
            more: flags::is_set(u16::read_at(page, 2), 0),
            number: u16::read_at(page, 4),
            count: u16::read_at(page, 6),
            generation: u32::read_at(page, 8),
        }
    }

    // Writes the head of a page into the first 16 bytes.
    pub fn write(self, buffer: &mut [u8])
        requires { 16 ≤ length buffer.old }
        ensures { buffer.new ≡ sets buffer.old 0 (head_bytes self) }
    {
        let word = flags::word(self.more, false);
        PAGE_MARK.write_at(buffer, 0);
        word.write_at(buffer, 2);
        self.number.write_at(buffer, 4);
        self.count.write_at(buffer, 6);
        self.generation.write_at(buffer, 8);
        0u32.write_at(buffer, 12);
    }
}
