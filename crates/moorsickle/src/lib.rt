// The library's public calls, every one in this file. None asks anything of its caller: whatever goes in, the answer
// and every lent byte afterwards are those that the call states. A call that refuses gives the first number that
// applies, in the order in which the call lists them, and all lent memory stays as it was.
//
// Layout, component and object are the records of crate `layout`, a target record that of crate `free_table`. A layout
// is valid if its components keep the component rules and it is complete: what a collector holds with pages outstanding
// is not complete, so every call that takes a layout refuses it by 1.
//
// Offsets, lengths and bytes are counted in bytes, a file byte from the file's start and an object byte from its
// object's; pages, components and stripes are counted from 0.
#![tactic(auto)]

ghost use Rattle.std.specs.Prelude.{◌≡◌, length};
ghost use Rattle.refusals.specs.Numbered.{numbered};
ghost use Rattle.layout.specs.Records.{view};
ghost use Rattle.layout.specs.Rows.{object_of};
ghost use Rattle.collector.specs.Collector.{new_collector};
ghost use Rattle.collector.specs.Taking.{page_in};
ghost use Rattle.collector.specs.Giving.{layout_says, layout_out};
ghost use Rattle.paging.specs.Paging.{written_page, out_refusal, out_answer, out_buffer};
ghost use Rattle.mapping.specs.Answers.{checked};
ghost use Rattle.mapping.specs.Homes.{in_object};
ghost use Rattle.mapping.specs.Lookup.{lookup_says, lookup_of};
ghost use Rattle.mapping.specs.Back.{back_says, back_of};
ghost use Rattle.mapping.specs.Cutting.{cut_says, cut_of, cut_refusal, cut_pieces, room_after};
ghost use Rattle.growth_rules.specs.Growing.{grow_of};
ghost use Rattle.moorsickle.specs.Answers.{grow_says};

use collector::{Answer, Collector};
use free_table::TargetRecord;
use growth::Effect;
use layout::Layout;
use mapping::ObjectHome;
use refusals::Refusal;

// A collector that has taken no page. A layout is gathered by lending it to `take_page` with one page after the
// other, from page 0, until that answers `Complete`; `layout_of` then gives the layout.
pub fn new_collector() -> Collector
    ensures { result ≡ new_collector }
{
    collector::new_collector()
}

// Takes a page into the lent collector, which is changed in place. `page` has the bytes of one page and no others; it
// is only read. The answer is `Ok(More)` if the page was taken and further pages are wanted, `Ok(Complete)` if it was
// taken and is the last, and one of these refusals if it was not taken; the collector then stays as it was, and a page
// may be sent again:
//  1 `NotValid`: the collector breaks the rules of a collector, or its components break the component rules;
//  2 `AfterLastPage`: the collector is complete;
//  3 `Form`: the bytes are not of the form of a page;
//  4 `PageNumber`: the page's number is not the next, or its generation is not that of page 0;
//  5 `Over16`: with this page there are more than 16 components;
//  6 `Fields`: a component breaks the rules of its fields;
//  7 `Neighbours`: the components break the rules of neighbours;
//  8 `Distinctness`: two components share an id, or two object records name the same target and number.
pub fn take_page(c: &mut Collector, page: &[u8]) -> Result<Answer, Refusal>
    ensures { (numbered result ≡ (page_in c.old page.now).answer)
        × (c.new ≡ (page_in c.old page.now).collector) }
{
    collector::take_page(c, page)
}

// The layout out of a complete collector, which is only read and stays as it was. The answer is `Ok` with the layout,
// that is, the gathered components and the generation of their pages; or this refusal:
//  1 `NotValid`: the collector breaks the rules of a collector, its components break the component rules, or it is not
//    complete.
// That it stays as it was is in the type: what a `&` lends has one value in a contract, so the second equation holds of
// any function.
pub fn layout_of(c: &Collector) -> Result<Layout, Refusal>
    ensures { (layout_says result ≡ layout_out c.now) × (c.now ≡ c.now) }
{
    collector::layout_of(c)
}

// Writes page `number` of a layout into the first bytes of the lent buffer; the bytes after the page stay. A page
// takes the next component if the page then has at most 512 bytes. The answer is `Ok` with the number of bytes of the
// page, or one of these refusals; the whole buffer then stays:
//  1 `NotValid`: the layout is not valid;
//  4 `PageNumber`: the layout has no page of this number;
//  20 `Buffer`: the buffer is shorter than the page.
pub fn page_out(l: Layout, number: u64, buffer: &mut [u8]) -> Result<usize, Refusal>
    ensures { let refusal = out_refusal l number (length buffer.old) in
        (numbered result ≡ out_answer refusal (written_page l number))
        × (buffer.new ≡ out_buffer refusal (written_page l number) buffer.old) }
{
    paging::page_out(l, number, buffer)
}

// The home of the file byte at `offset`. The answer is `Ok` with the target and the number of the object and the byte
// of that object, or one of these refusals:
//  1 `NotValid`: the layout is not valid;
//  10 `PastEnd`: the byte lies at or past the last component's end;
//  11 `NotInit`: the byte lies in a component that is not init.
pub fn lookup(l: Layout, offset: u64) -> Result<ObjectHome, Refusal>
    ensures { lookup_says result ≡ lookup_of offset l }
{
    mapping::lookup(l, offset)
}

// The way back: the file byte whose home is byte `byte` of the object with this target and number. The answer is `Ok`
// with the file byte, or one of these refusals:
//  1 `NotValid`: the layout is not valid;
//  13 `NoObject`: the object is not in the layout;
//  14 `Hidden`: the object byte is hidden, that is, its file byte lies outside the object's component, or is not below
//     2^64.
pub fn back(l: Layout, target: u32, number: u64, byte: u64) -> Result<u64, Refusal>
    ensures { back_says result ≡ back_of (in_object (object_of target number) byte) l }
{
    mapping::back(l, target, number, byte)
}

// Cuts the request of `bytes` bytes from `offset` at every component border and at every multiple of the component's
// stripe size. The answer is `Ok` with the number of pieces, which are in file order in the first of the lent numbers,
// five a piece: file offset, length, component id, stripe, object byte; the other numbers stay. A request of no bytes
// has no pieces in a valid layout, wherever it points. Or the answer is one of these refusals; all lent numbers then
// stay:
//  1 `NotValid`: the layout is not valid;
//  9 `RequestEnd`: offset + bytes is above 2^64 - 1;
//  10 `PastEnd`: a byte asked for lies at or past the last component's end;
//  11 `NotInit`: a byte asked for lies in a component that is not init;
//  12 `Pieces`: there are more pieces than 256, or than a fifth of the lent numbers, rounded down.
pub fn cut(l: Layout, offset: u64, bytes: u64, room: &mut [u64]) -> Result<u64, Refusal>
    ensures { let lent = room.old in
        (cut_says result ≡ cut_of offset bytes (length lent) l)
        × (room.new
        ≡ room_after
        (checked l (cut_refusal offset bytes (length lent) (view l)))
        (cut_pieces offset bytes (view l))
        lent) }
{
    mapping::cut(l, offset, bytes, room)
}

// Makes one step of growth of the lent layout, for the component that holds the file byte at `offset`. `mark` is the
// low mark in bytes. The free table is lent as its records, targets rising. The answer is `Ok` with whether the byte
// has a home now and whether the layout changed: the layout is changed in place, and the next numbers of the chosen
// targets are raised in the table. One step may not reach the byte: the call is then made again. Or the answer is one
// of these refusals, and the layout and every record stay:
//  1 `NotValid`: the layout is not valid;
//  10 `PastEnd`: the byte lies at or past the last component's end;
//  15 `Table`: the table has more than 64 records, or its targets do not rise strictly, or one is above 65,534;
//  16 `TooFewTargets`: too few targets are usable;
//  17 `GrownOver16`: the step would leave 17 components;
//  18 `ObjectInLayout`: a chosen target and number are in the layout already;
//  19 `Generation`: a change is due and the generation is 2^32 - 1.
pub fn grow(
    l: &mut Layout,
    offset: u64,
    mark: u64,
    table: &mut [TargetRecord],
) -> Result<Effect, Refusal>
    ensures { let o = grow_of l.old (record { offset = offset; mark = mark; table = table.old }) in
        (grow_says result ≡ o.answer)
        × (l.new ≡ o.layout)
        × (table.new ≡ o.table) }
{
    let grown = growth::grow(*l, offset, mark, table)?;
    *l = grown.layout;
    Ok(grown.effect)
}
