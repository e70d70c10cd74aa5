// Growth for the host: pages back to back in and out, the free table as words.
ghost use Rattle.std.specs.Prelude.{◌≡◌, true, [], ◌∷◌, ◌+◌, ◌*◌, ◌≤◌, cond, length, take};
ghost use Rattle.std.proofs.lemmas.List.Edits.{sets};
ghost use Rattle.refusals.specs.Refusals.{number_in};
ghost use Rattle.layout.specs.Rules.{valid};
ghost use Rattle.gateway.specs.Host.{lent_after};
ghost use Rattle.gateway.specs.HostGrowth.{with_next_words, host_grown, pages_of, room_number};
ghost use Rattle.gateway.specs.HostGrowth.{grow_number, table_after, grown_after, answer_after};
ghost use Rattle.gateway.specs.LentWords.{held_record, record_at, first_held};

use free_table::{NO_RECORD, TargetRecord};
use growth::Grown;
use layout::Layout;
use refusals::Refusal;

// The record for words that make no whole record: its target makes the table bad.
const CUT_RECORD: TargetRecord = TargetRecord {
    target: 65535,
    free: 0,
    next: 0,
};

// The record of the first three words, as a table in memory has it: targets above 65,534 are equally bad, and are there
// as 65,535. The cut record if there are fewer words.
fn first_record(words: &[u64]) -> TargetRecord
    ensures { result ≡ held_record (record_at words.now 0) }
{
    match words {
        [target, free, next, ..] => TargetRecord {
            target: (*target).min(65535) as u32,
            free: *free,
            next: *next,
        },
        _ => CUT_RECORD,
    }
}

// Puts the records of the words into the first places, at most 65 of them: 65 are too many already. Tells how many it
// put there.
fn load(words: &[u64], records: &mut [TargetRecord; 65]) -> usize
    ensures { (result ≤ 65) × (take result records.new ≡ first_held 65 words.now) }
{
    let n = words.len().div_ceil(3).min(65);
    for (i, record) in records[..n].iter_mut().enumerate() {
        *record = first_record(&words[3 * i..]);
    }
    n
}

// Stores the next numbers of the records, each in the third word of its record.
fn put_nexts(words: &mut [u64], records: &[TargetRecord])
    requires { 3 * length records.now ≤ length words.old }
    ensures { words.new ≡ with_next_words words.old records.now }
{
    for (i, record) in records.iter().enumerate() {
        words[3 * i + 2] = record.next;
    }
}

// How many bytes the pages of a valid layout have.
fn pages_length(l: Layout) -> usize
    requires { valid l ≡ true }
    ensures { result ≡ length (pages_of l) }
{
    let mut bytes = 0;
    for k in 0..16 {
        let mut page = [0u8; 512];
        let Ok(n) = paging::write_page(l, k, &mut page) else {
            break;
        };
        bytes += n;
    }
    bytes
}

// Writes the pages of a valid layout back to back into the first bytes of the buffer.
fn put_pages(l: Layout, buffer: &mut [u8])
    requires { (valid l ≡ true) × (length (pages_of l) ≤ length buffer.old) }
    ensures { buffer.new ≡ sets buffer.old 0 (pages_of l) }
{
    let mut p = 0;
    for k in 0..16 {
        let Ok(n) = paging::write_page(l, k, &mut buffer[p..]) else {
            break;
        };
        p += n;
    }
}

// Stores the results of growth that was accepted: the next numbers in the words, the pages in the buffer, and the two
// numbers of the answer. Refused if the buffer is shorter than the pages.
fn give(
    grown: &Grown,
    records: &[TargetRecord],
    words: &mut [u64],
    buffer: &mut [u8],
    answer: &mut [u64; 2],
) -> Result<(), Refusal>
    requires { (valid grown.now.layout ≡ true) × (3 * length records.now ≤ length words.old) }
    ensures { let l = grown.now.layout in
        let n = room_number l (length buffer.old) in
        (number_in result ≡ n)
        × (words.new ≡ lent_after n (with_next_words words.old records.now) words.old)
        × (buffer.new ≡ lent_after n (sets buffer.old 0 (pages_of l)) buffer.old)
        × (answer.new
        ≡ lent_after
        n
        (sets answer.old 0 (length (pages_of l) ∷ cond grown.now.effect.home 1 0 ∷ []))
        answer.old) }
{
    let bytes = pages_length(grown.layout);
    if buffer.len() < bytes {
        return Err(Refusal::Buffer);
    }
    put_pages(grown.layout, buffer);
    put_nexts(words, records);
    *answer = [bytes as u64, u64::from(grown.effect.home)];
    Ok(())
}

// Makes one step of growth, and stores its results.
fn grow(
    pages: &[u8],
    offset: u64,
    low_mark: u64,
    table: &mut [u64],
    grown: &mut [u8],
    answer: &mut [u64; 2],
) -> Result<(), Refusal>
    ensures { let o = host_grown pages.now offset low_mark table.old in
        let n = grow_number
        pages.now
        offset
        low_mark
        table.old
        (length grown.old) in
        (number_in result ≡ n)
        × (table.new ≡ table_after n table.old o)
        × (grown.new ≡ grown_after n grown.old o)
        × (answer.new ≡ answer_after n answer.old o) }
{
    let mut places = [0; 16];
    let read = placed_run::read(pages, &mut places)?;
    let l = crate::layout_found(pages, &places, read);
    let mut records = [NO_RECORD; 65];
    let n = load(table, &mut records);
    let step = growth::grow_valid(l, offset, low_mark, &mut records[..n])?;
    give(&step, &records[..n], table, grown, answer)
}

// Makes one step of growth of the layout whose pages are back to back in `pages`, for the component that holds the
// file byte at `offset`. `low_mark` is the low mark in bytes. `table` is the free table, three numbers a record:
// target, free bytes, next object number; targets rise. It returns 0 if the call is accepted. `grown` then has the
// pages of the layout afterwards, back to back, in its first bytes; in `table` the next numbers of the chosen targets
// are raised; and `answer` is the number of bytes written, and 1 if the offset now has a home, else 0. Else it returns
// one of these numbers, and all that is lent stays:
//  1 to 8 the pages are refused;
//  10 the byte lies at or past the last component's end;
//  15 the length of the table is no multiple of 3, or it has more than 64 records, or its targets do not rise strictly,
//     or one is above 65,534;
//  16 too few targets are usable;
//  17 the step would leave 17 components;
//  18 a chosen target and number are in the layout already;
//  19 a change is due and the generation is 2^32 - 1;
//  20 `grown` is shorter than the pages.
pub fn moorsickle_grow(
    pages: &[u8],
    offset: u64,
    low_mark: u64,
    table: &mut [u64],
    grown: &mut [u8],
    answer: &mut [u64; 2],
) -> u32
    ensures { let o = host_grown pages.now offset low_mark table.old in
        let n = grow_number
        pages.now
        offset
        low_mark
        table.old
        (length grown.old) in
        (result ≡ n)
        × (table.new ≡ table_after n table.old o)
        × (grown.new ≡ grown_after n grown.old o)
        × (answer.new ≡ answer_after n answer.old o) }
{
    crate::number_of(grow(pages, offset, low_mark, table, grown, answer))
}
