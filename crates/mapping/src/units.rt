// The pieces of one component: a stretch of file bytes cut at every multiple of the stripe size.
ghost use Rattle.std.specs.Prelude.{◌≡◌, ◌+◌, ◌*◌, ◌^◌, ◌<◌, ◌≤◌, cond, eqb, length};
ghost use Rattle.std.proofs.lemmas.List.Edits.{sets};
ghost use Rattle.mapping.specs.Cutting.{unit_count, unit_pieces, piece_numbers, all_numbers};

use crate::{Piece, Span};

// The number of pieces of the bytes from `from` to `to`, which is not among them, by the stripe size: one for each unit
// that has a byte among them. Stripe sizes are at least 65,536.
pub fn unit_count(z: u32, from: u64, to: u64) -> u64
    requires { 65536 ≤ z }
    ensures { (result ≡ unit_count z from to) × (result ≤ 2 ^ 48) }
{
    if to <= from {
        return 0;
    }
    let size = z as u64;
    let within = from % size;
    let to_last = to - from - 1;
    if to_last < size - within {
        return 1;
    }
    (within + to_last) / size + 1
}

// Writes the five numbers of a piece from place `at` on.
fn put_piece(room: &mut [u64], at: usize, p: Piece)
    requires { at + 5 ≤ length room.old }
    ensures { room.new ≡ sets room.old at (piece_numbers p) }
{
    room[at] = p.offset;
    room[at + 1] = p.length;
    room[at + 2] = p.id;
    room[at + 3] = p.stripe;
    room[at + 4] = p.byte;
}

// Writes the pieces of a component's bytes from `from` to `to`, which is not among them, from place `at` on, and gives
// the place after them. It divides only to find the first unit. From there it steps from unit to unit: to the next
// stripe in the same row or, after the last stripe, to stripe 0 in the next row. For the bytes from 2M + 10 to 5M + 7,
// by 3 stripes of 1M (units are counted from byte 0 of the file, whatever component the bytes are in; a dot is a unit
// that no byte of these is in):
//
//               stripe 0             stripe 1             stripe 2
//      row 0    .                    .                    unit 2: piece 1
//      row 1    unit 3: piece 2      unit 4: piece 3      unit 5: piece 4
//
//      piece 1    file byte 2M + 10, length 1M - 10, stripe 2, object byte 10
//      piece 2    file byte 3M, length 1M, stripe 0, object byte 1M
//      piece 3    file byte 4M, length 1M, stripe 1, object byte 1M
//      piece 4    file byte 5M, length 7, stripe 2, object byte 1M
pub fn put_units(room: &mut [u64], at: usize, c: Span, from: u64, to: u64) -> usize
    requires { (0 < c.stripe_size)
        × (0 < c.stripe_count)
        × (from < to)
        × (at + 5 * unit_count c.stripe_size from to ≤ length room.old) }
    ensures { (room.new
        ≡ sets room.old at
        (all_numbers (unit_pieces (unit_count c.stripe_size from to) c.id c.stripe_size c.stripe_count from to)))
        × (result ≡ at + 5 * unit_count c.stripe_size from to) }
{
    let size = c.stripe_size as u64;
    let count = c.stripe_count as u64;
    let unit = from / size;
    let within = from % size;
    // The object byte at which the unit of byte `a` begins.
    let mut row = unit / count * size;
    let mut stripe = unit % count;
    let mut byte = row + within;
    let mut left = size - within;
    let mut a = from;
    let mut w = at;
    while left < to - a {
        let piece = Piece {
            offset: a,
            length: left,
            id: c.id as u64,
            stripe,
            byte,
        };
        put_piece(room, w, piece);
        w += 5;
        a += left;
        left = size;
        stripe += 1;
        if stripe == count {
            stripe = 0;
            row += size;
        }
        byte = row;
    }
    let last = Piece {
        offset: a,
        length: to - a,
        id: c.id as u64,
        stripe,
        byte,
    };
    put_piece(room, w, last);
    w + 5
}
