// The form of a page (refusal 3).
ghost use Rattle.std.specs.Prelude.{◌≡◌, true, ◌+◌, ◌*◌, ◌^◌, ◌≤◌, ◌<◌, length, set};
ghost use Rattle.page.specs.Form.{object_form, objects_form, component_marks, component_form, component_end, end_if};
ghost use Rattle.page.specs.Form.{records_at, head_form, page_form};
ghost use Rattle.page.specs.Walked.{Walks, Walked};

use bytes_le::{LittleEndian, flags};

// "A page has 16 to 512 bytes".
const MOST_BYTES: usize = 512;

// Has the object record at the place its form?
#[tactic(auto, unfolding(crate::specs::Form::object_form))]
fn object_form(s: &[u8], at: usize) -> bool
    requires { at + 16 ≤ length s.now }
    ensures { result ≡ object_form s.now at }
{
    u16::read_at(s, at) == crate::OBJECT_MARK && u16::read_at(s, at + 2) == 0
}

// Have the n object records from the place on their form?
pub fn objects_form(s: &[u8], at: usize, n: usize) -> bool
    requires { at + 16 * n ≤ length s.now }
    ensures { result ≡ objects_form n s.now at }
{
    (0..n).all(|i| object_form(s, at + 16 * i))
}

// Has the component at the place its mark, and no flag but init and extension?
#[tactic(auto, unfolding(crate::specs::Form::component_marks))]
pub fn component_marks(s: &[u8], at: usize) -> bool
    requires { at + 40 ≤ length s.now }
    ensures { result ≡ component_marks s.now at }
{
    let word = u16::read_at(s, at + 2);
    u16::read_at(s, at) == crate::COMPONENT_MARK && flags::only_first_bits(word, 2)
}

// The number of object records after the component at the place: the stripe count if init is set, else none.
#[tactic(auto, unfolding(crate::specs::Form::records_at))]
pub fn record_count(s: &[u8], at: usize) -> usize
    requires { at + 40 ≤ length s.now }
    ensures { (result ≡ records_at s.now at) × (result < 65536) }
{
    if flags::is_set(u16::read_at(s, at + 2), 0) {
        usize::from(u16::read_at(s, at + 6))
    } else {
        0
    }
}

// Has the head its form?
#[tactic(auto, unfolding(crate::specs::Form::head_form))]
pub fn head_form(s: &[u8]) -> bool
    requires { 16 ≤ length s.now }
    ensures { result ≡ head_form s.now }
{
    let word = u16::read_at(s, 2);
    u16::read_at(s, 0) == crate::PAGE_MARK
        && flags::only_first_bits(word, 1)
        && 1 <= u16::read_at(s, 6)
        && u32::read_at(s, 12) == 0
}

// Stores a place at position i, if there is one.
fn note(places: &mut [usize], i: usize, place: usize)
    ensures { places.new ≡ set places.old i place }
{
    if i < places.len() {
        places[i] = place;
    }
}

// Where the component at the place ends, if it has its form and ends by the limit.
fn end_of_component(s: &[u8], at: usize, limit: usize) -> Option<usize>
    requires { (at ≤ limit) × (limit ≤ length s.now) × (limit ≤ 512) }
    ensures { result ≡ end_if (component_form limit s.now at) (component_end s.now at) }
{
    if limit - at < 40 {
        return None;
    }
    let records = record_count(s, at);
    if limit - at - 40 < 16 * records {
        return None;
    }
    if component_marks(s, at) && objects_form(s, at + 40, records) {
        Some(at + 40 + 16 * records)
    } else {
        None
    }
}

// Walks over the page that the bytes begin with and that is to end by the limit, up to the first fault. The places of
// its components are stored from position n on, as far as there are positions, each with `base` added: the bytes may be
// part of longer ones, with `base` bytes before them. Gives where the page ends, or `None` if it does not have its
// form.
pub fn walk(
    s: &[u8],
    limit: usize,
    base: usize,
    n: usize,
    places: &mut [usize; 16],
) -> Option<usize>
    requires { (limit ≤ length s.now)
        × (limit ≤ 512)
        × (base + length s.now < 2 ^ 64)
        × (n ≤ 16)
        × (length places.old ≡ 16) }
    ensures { Walks limit s.now base n places.old places.new result }
{
    if limit < 16 || !head_form(s) {
        return None;
    }
    let count = usize::from(u16::read_at(s, 6));
    let mut at = 16;
    for i in 0..count {
        let end = end_of_component(s, at, limit)?;
        note(places, n + i, base + at);
        at = end;
    }
    Some(at)
}

// Are the bytes one page, of 16 to 512 bytes and with nothing after its last record? If so, the places of its
// components are stored in the first positions.
pub fn walk_page(s: &[u8], places: &mut [usize; 16]) -> bool
    requires { length places.old ≡ 16 }
    ensures { (result ≡ page_form s.now)
        × (page_form s.now ≡ true → Walked s.now places.new) }
{
    s.len() <= MOST_BYTES && walk(s, s.len(), 0, 0, places) == Some(s.len())
}
