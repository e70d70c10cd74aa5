// The calls behind the entry points for C, over the bytes of a layout's pages and plain numbers. The pages are back to
// back, each ending after the records that its head counts. Crate `gateway_c` hands them to C.
//
// Every call returns 0, or the number of a refusal; a call that is refused stores nothing. A refusal of the reading of
// the pages comes first, by one of these numbers:
//  1 the bytes end with pages outstanding;
//  2 there are bytes after the last page;
//  3 a page is not of the form of a page;
//  4 a page's number is not the next, or its generation is not that of page 0;
//  5 there are more than 16 components;
//  6, 7, 8 the components break the rules of fields, of neighbours or of distinctness.
// The pages are read in place: a layout is built only if a page of it is asked for, or it is to grow.
//
// Each call is made by a function that answers with a `Result`, and `number_of` gives the number of that.
//
// Offsets, lengths and bytes are counted in bytes, a file byte from the file's start and an object byte from its
// object's; pages, components and stripes are counted from 0.
#![tactic(auto)]

ghost use Rattle.std.specs.Prelude.{◌≡◌, IfOk, Ok};
ghost use Rattle.placed_run.specs.Found.{Finds};
ghost use Rattle.refusals.specs.Refusals.{number_in};
ghost use Rattle.layout.specs.Rows.{object_of};
ghost use Rattle.mapping.specs.Homes.{in_object};
ghost use Rattle.gateway.specs.Host.{host_reading, host_layout, host_components};
ghost use Rattle.in_place.specs.Places.{components_at};
ghost use Rattle.gateway.specs.Host.{lookup_number, home_after, back_number, offset_after};
ghost use Rattle.gateway.specs.Host.{cut_number, pieces_after, count_after, page_number, buffer_after, written_after};

use layout::{Layout, Object};
use placed_mapping::Placed;
use placed_run::Found;
use refusals::Refusal;

pub mod growing;

// The number that a call returns: that of the refusal, or 0.
fn number_of(answer: Result<(), Refusal>) -> u32
    ensures { result ≡ number_in answer }
{
    match answer {
        Ok(()) => 0,
        Err(refusal) => u32::from(refusal.number()),
    }
}

// The layout whose components were found in the pages. It is built where the caller keeps it: an answer with a refusal
// beside it would be cleared and copied once more.
fn layout_found(pages: &[u8], places: &[usize; 16], read: Found) -> Layout
    requires { Finds pages.now (Ok read) places.now }
    ensures { result ≡ host_layout pages.now }
{
    in_place::whole::layout_at(pages, &places[..read.count], read.generation)
}

// The components that are in the pages, by their places in them.
fn read_placed<'a>(pages: &'a [u8], places: &'a mut [usize; 16]) -> Result<Placed<'a>, Refusal>
    ensures number { number_in result ≡ (host_reading pages.now).refusal }
    ensures placed { IfOk result
        (λ p. components_at p.pages.now p.places.now ≡ host_components pages.now) }
{
    let read = placed_run::read(pages, places)?;
    Ok(Placed {
        pages,
        places: &places[..read.count],
    })
}

// Stores the home of a file byte.
fn lookup(pages: &[u8], offset: u64, home: &mut [u64; 3]) -> Result<(), Refusal>
    ensures { (number_in result ≡ lookup_number pages.now offset)
        × (home.new ≡ home_after pages.now offset home.old) }
{
    let mut places = [0; 16];
    let found = read_placed(pages, &mut places)?.lookup(offset)?;
    *home = [u64::from(found.target), found.number, found.byte];
    Ok(())
}

// The home of the file byte at `offset`: `home` receives the target and the number of the object and the byte of that
// object. Refused, once the pages are read, by one of these numbers:
//  10 the byte lies at or past the last component's end;
//  11 the byte lies in a component that is not init.
pub fn moorsickle_lookup(pages: &[u8], offset: u64, home: &mut [u64; 3]) -> u32
    ensures { (result ≡ lookup_number pages.now offset)
        × (home.new ≡ home_after pages.now offset home.old) }
{
    number_of(lookup(pages, offset, home))
}

// Stores the file byte of a home.
fn back(pages: &[u8], target: u32, number: u64, byte: u64, offset: &mut u64) -> Result<(), Refusal>
    ensures { let bytes = pages.now in
        let home = in_object (object_of target number) byte in
        (number_in result ≡ back_number bytes home)
        × (offset.new ≡ offset_after bytes home offset.old) }
{
    let mut places = [0; 16];
    let placed = read_placed(pages, &mut places)?;
    *offset = placed.back(Object { target, number }, byte)?;
    Ok(())
}

// The way back: `offset` receives the file byte whose home is byte `byte` of the object with this target and number.
// Refused, once the pages are read, by one of these numbers:
//  13 the object is not in the layout;
//  14 the object byte is hidden: its file byte lies outside the object's component, or is not below 2^64.
pub fn moorsickle_back(pages: &[u8], target: u32, number: u64, byte: u64, offset: &mut u64) -> u32
    ensures { let bytes = pages.now in
        let home = in_object (object_of target number) byte in
        (result ≡ back_number bytes home)
        × (offset.new ≡ offset_after bytes home offset.old) }
{
    number_of(back(pages, target, number, byte, offset))
}

// Stores the pieces of a request, and their number.
fn cut(
    pages: &[u8],
    offset: u64,
    length: u64,
    room: &mut [u64],
    count: &mut u64,
) -> Result<(), Refusal>
    ensures { let bytes = pages.now in
        let lent = room.old in
        (number_in result ≡ cut_number bytes offset length lent)
        × (room.new ≡ pieces_after bytes offset length lent)
        × (count.new ≡ count_after bytes offset length lent count.old) }
{
    let mut places = [0; 16];
    *count = read_placed(pages, &mut places)?.cut(offset, length, room)?;
    Ok(())
}

// Cuts the request of `length` bytes from `offset` at every component border and at every multiple of the component's
// stripe size. `count` receives the number of pieces, and the first numbers of `room` the pieces in file order, five
// numbers a piece: file offset, length, component id, stripe, object byte; the other numbers stay. A request of no
// bytes has no pieces, wherever it points. Refused, once the pages are read, by one of these numbers:
//  9 offset + length is above 2^64 - 1;
//  10 a byte asked for lies at or past the last component's end;
//  11 a byte asked for lies in a component that is not init;
//  12 there are more pieces than 256, or than a fifth of the numbers of `room`, rounded down.
pub fn moorsickle_cut(
    pages: &[u8],
    offset: u64,
    length: u64,
    room: &mut [u64],
    count: &mut u64,
) -> u32
    ensures { let bytes = pages.now in
        let lent = room.old in
        (result ≡ cut_number bytes offset length lent)
        × (room.new ≡ pieces_after bytes offset length lent)
        × (count.new ≡ count_after bytes offset length lent count.old) }
{
    number_of(cut(pages, offset, length, room, count))
}

// Stores a page of the layout, and the number of its bytes.
fn page(pages: &[u8], number: u64, buffer: &mut [u8], written: &mut u64) -> Result<(), Refusal>
    ensures { let bytes = pages.now in
        let lent = buffer.old in
        (number_in result ≡ page_number bytes number lent)
        × (buffer.new ≡ buffer_after bytes number lent)
        × (written.new ≡ written_after bytes number lent written.old) }
{
    let mut places = [0; 16];
    let read = placed_run::read(pages, &mut places)?;
    let l = layout_found(pages, &places, read);
    *written = paging::write_page(l, number, buffer)? as u64;
    Ok(())
}

// Writes page `number` of the layout into the first bytes of `buffer`; the bytes after the page stay. A page takes the
// next component if the page then has at most 512 bytes, however the pages handed in were cut. `written` receives
// the number of bytes of the page. Refused, once the pages are read, by one of these numbers:
//  4 the layout has no page of this number;
//  20 the buffer is shorter than the page.
pub fn moorsickle_page(pages: &[u8], number: u64, buffer: &mut [u8], written: &mut u64) -> u32
    ensures { let bytes = pages.now in
        let lent = buffer.old in
        (result ≡ page_number bytes number lent)
        × (buffer.new ≡ buffer_after bytes number lent)
        × (written.new ≡ written_after bytes number lent written.old) }
{
    number_of(page(pages, number, buffer, written))
}
