// A request cut into pieces: what can refuse it is asked first, the pieces are written last.
ghost use Rattle.std.specs.Prelude.{◌≡◌, true, ◌+◌, ◌*◌, ◌^◌, ◌≤◌, length, List, cond};
ghost use Rattle.std.proofs.lemmas.List.Edits.{sets};
ghost use Rattle.lists.specs.Tests.{any_of};
ghost use Rattle.layout.specs.Records.{view};
ghost use Rattle.layout.specs.Rules.{valid};
ghost use Rattle.layout.specs.Holder.{last_end};
ghost use Rattle.mapping.specs.Answers.{answer};
ghost use Rattle.mapping.specs.Cutting.{part_begin, part_end, not_init_asked, part_count, part_pieces};
ghost use Rattle.mapping.specs.Cutting.{piece_count, pieces_of, all_numbers, too_many, room_after};
ghost use Rattle.mapping.specs.Cutting.{refusal_by, cut_refusal, cut_pieces, cut_in, cut_says};
ghost use Rattle.mapping.specs.Spans.{Cuttable, AllCuttable};

use crate::components::Components;
use crate::listed::Listed;
use crate::spans::{SpanList, Spans, SpansOf};
use crate::{Span, units};
use layout::Layout;
use refusals::Refusal;

// The most pieces that a request is cut into.
const MOST_PIECES: u64 = 256;

// A request: the file bytes from `offset` to `stop`, which is not among them.
#[derive(Clone, Copy)]
pub struct Request {
    pub offset: u64,
    pub stop: u64,
}

impl Request {
    // The part of the request in the component; there is none if it begins at or after its end.
    fn part(self, c: Span) -> Request
        ensures { (result.offset ≡ part_begin self.offset c) × (result.stop ≡ part_end self.stop c) }
    {
        Request {
            offset: self.offset.max(c.begin),
            stop: self.stop.min(c.end),
        }
    }
}

// Does a byte of the request lie in the component, and is that not init?
pub fn not_init_asked(c: Span, request: Request) -> bool
    ensures { result ≡ not_init_asked request.offset request.stop c }
{
    let part = request.part(c);
    !c.init && part.offset < part.stop
}

// The number of pieces of the request in one component, by arithmetic.
pub fn part_count(c: Span, request: Request) -> u64
    requires { Cuttable c }
    ensures { (result ≡ part_count request.offset request.stop c) × (result ≤ 2 ^ 48) }
{
    if !c.init {
        return 0;
    }
    let part = request.part(c);
    units::unit_count(c.stripe_size, part.offset, part.stop)
}

// The number of pieces of the request in the components. Refused by 11 if a byte of it lies in one that is not init.
fn asked<S: Spans>(spans: &S, request: Request) -> Result<u64, Refusal>
    ensures { cut_says result
        ≡ answer
        (cond (any_of (not_init_asked request.offset request.stop) (S.spans spans.now)) 11 0)
        (piece_count request.offset request.stop (S.spans spans.now)) }
{
    let mut pieces: u64 = 0;
    for i in 0..spans.count() {
        let span = spans.span(i);
        if not_init_asked(span, request) {
            return Err(Refusal::NotInit);
        }
        pieces += part_count(span, request);
    }
    Ok(pieces)
}

// Are there more pieces than 256 or than the room of so many lent numbers?
pub fn too_many(numbers: usize, pieces: u64) -> bool
    ensures { result ≡ too_many numbers pieces }
{
    pieces > MOST_PIECES || pieces > (numbers / 5) as u64
}

// Where the last component ends.
fn last_end<C: Components>(components: &C) -> u64
    ensures { result ≡ last_end (C.list components.now) }
{
    components.end(components.count() - 1)
}

// The number of pieces of the request of `bytes` bytes from `offset` into so many lent numbers, in components of which
// the last one ends at `end`. Refused by 9, 10, 11 or 12.
fn count_pieces<S: Spans>(
    spans: &S,
    end: u64,
    offset: u64,
    bytes: u64,
    numbers: usize,
) -> Result<u64, Refusal>
    ensures { cut_says result
        ≡ answer
        (refusal_by end offset bytes numbers (S.spans spans.now))
        (piece_count offset (offset + bytes) (S.spans spans.now)) }
{
    let stop = offset.checked_add(bytes).ok_or(Refusal::RequestEnd)?;
    if 0 < bytes && end < stop {
        return Err(Refusal::PastEnd);
    }
    let pieces = asked(spans, Request { offset, stop })?;
    if too_many(numbers, pieces) {
        return Err(Refusal::Pieces);
    }
    Ok(pieces)
}

// Writes the pieces of the request in one component from place `at` on, and gives the place after them.
pub fn put_part(room: &mut [u64], at: usize, c: Span, request: Request) -> usize
    requires { (Cuttable c)
        × (at + 5 * part_count request.offset request.stop c ≤ length room.old) }
    ensures { (room.new
        ≡ sets room.old at (all_numbers (part_pieces request.offset request.stop c)))
        × (result ≡ at + 5 * part_count request.offset request.stop c) }
{
    if !c.init {
        return at;
    }
    let part = request.part(c);
    if part.stop <= part.offset {
        return at;
    }
    units::put_units(room, at, c, part.offset, part.stop)
}

// Writes the pieces of the request in the components into the first of the lent numbers.
fn put_pieces<S: Spans>(room: &mut [u64], spans: &S, request: Request)
    requires { (5 * piece_count request.offset request.stop (S.spans spans.now) ≤ length room.old) }
    ensures { room.new
        ≡ sets room.old 0 (all_numbers (pieces_of request.offset request.stop (S.spans spans.now))) }
{
    let mut at: usize = 0;
    for i in 0..spans.count() {
        at = put_part(room, at, spans.span(i), request);
    }
}

// Cuts the request by components of which the last one ends at `end`, wherever their spans are kept. Refused by 9, 10,
// 11 or 12: all lent numbers then stay.
fn cut_by<S: Spans>(
    spans: &S,
    end: u64,
    offset: u64,
    bytes: u64,
    room: &mut [u64],
) -> Result<u64, Refusal>
    ensures { let lent = room.old in
        let xs = S.spans spans.now in
        let refusal = refusal_by end offset bytes (length lent) xs in
        (cut_says result ≡ answer refusal (piece_count offset (offset + bytes) xs))
        × (room.new ≡ room_after refusal (pieces_of offset (offset + bytes) xs) lent) }
{
    let pieces = count_pieces(spans, end, offset, bytes, room.len())?;
    let stop = offset + bytes;
    put_pieces(room, spans, Request { offset, stop });
    Ok(pieces)
}

// Cuts the request by up to 16 spans that can be cut, of which the last one ends at `end`. They need not be end to end,
// and `end` is taken as it is told, also if there is no span. Refused by 9, 10, 11 or 12: all lent numbers then stay.
pub fn cut_spans(
    spans: &[Span],
    end: u64,
    offset: u64,
    bytes: u64,
    room: &mut [u64],
) -> Result<u64, Refusal>
    requires { (length spans.now ≤ 16) × AllCuttable spans.now }
    ensures { let lent = room.old in
        let refusal = refusal_by end offset bytes (length lent) spans.now in
        (cut_says result ≡ answer refusal (piece_count offset (offset + bytes) spans.now))
        × (room.new ≡ room_after refusal (pieces_of offset (offset + bytes) spans.now) lent) }
{
    cut_by(&SpanList { spans }, end, offset, bytes, room)
}

// Cuts the request of `bytes` bytes from `offset` at every component border and at every multiple of the component's
// stripe size, and writes five numbers a piece, in file order, into the first of the lent numbers; the others stay.
// Refused by 9 if offset + bytes is above 2^64 - 1, 10 if a byte asked for lies at or past the last component's
// end, 11 if one lies in a component that is not init, 12 if there are more pieces than 256 or than a fifth of
// the lent numbers: all of them then stay.
pub fn cut_in<C: Components>(
    components: &C,
    offset: u64,
    bytes: u64,
    room: &mut [u64],
) -> Result<u64, Refusal>
    ensures { let lent = room.old in
        let cs = C.list components.now in
        (cut_says result ≡ cut_in offset bytes (length lent) cs)
        × (room.new
        ≡ room_after (cut_refusal offset bytes (length lent) cs) (cut_pieces offset bytes cs) lent) }
{
    cut_by(
        &SpansOf { components },
        last_end(components),
        offset,
        bytes,
        room,
    )
}

// The same, of a layout in memory that is known to be valid.
pub fn cut_valid(l: Layout, offset: u64, bytes: u64, room: &mut [u64]) -> Result<u64, Refusal>
    requires { valid l ≡ true }
    ensures { let lent = room.old in
        (cut_says result ≡ cut_in offset bytes (length lent) (view l))
        × (room.new
        ≡ room_after (cut_refusal offset bytes (length lent) (view l)) (cut_pieces offset bytes (view l)) lent) }
{
    cut_in(&Listed::new(&l), offset, bytes, room)
}
