// Homes, the way back and requests cut into pieces: document 01's examples a to i.
use crate::{end_line, pages, reading};
use layout::Layout;
use std::io;

// What the numbers are before a call.
const FILLER: u64 = 0xA5A5A5A5A5A5A5A5;

// Prints the home of a file byte.
pub(crate) fn lookup(rt: &impl Print, l: Layout, offset: u64) -> io::Result<()> {
    match moorsickle::lookup(l, offset) {
        Ok(home) => println!(rt;
            "home target {} object {} byte {}",
            home.target, home.number, home.byte
        ),
        Err(refusal) => println!(rt; "refused {refusal}"),
    }
}

// Prints the file byte whose home is this.
pub(crate) fn back(
    rt: &impl Print,
    l: Layout,
    target: u32,
    number: u64,
    byte: u64,
) -> io::Result<()> {
    match moorsickle::back(l, target, number, byte) {
        Ok(offset) => println!(rt; "file byte {offset}"),
        Err(refusal) => println!(rt; "refused {refusal}"),
    }
}

// Prints the pieces of a request, of which there are at most two, and whether the lent numbers after them stay.
pub(crate) fn cut(rt: &impl Print, l: Layout, offset: u64, bytes: u64) -> io::Result<()> {
    let mut room = [FILLER; 12];
    let out = moorsickle::cut(l, offset, bytes, &mut room);
    match out {
        Ok(count) => print!(rt; "{count} pieces")?,
        Err(refusal) => print!(rt; "refused {refusal}")?,
    }
    let count = out.unwrap_or(0) as usize;
    let (pieces, _) = room.as_chunks::<5>();
    for [offset, length, id, stripe, byte] in pieces.iter().take(count) {
        print!(rt; " ({offset} {length} {id} {stripe} {byte})")?;
    }
    let mut after = room.chunks(5).skip(count);
    end_line(
        rt,
        after.all(|numbers| numbers.iter().all(|&n| n == FILLER)),
    )
}

// Homes in the layout of document 01's page.
pub(crate) fn one_page(rt: &impl Print, l: Layout) -> io::Result<()> {
    for offset in [0, 65535, 65536] {
        print!(rt; "one page, byte {offset}: ")?;
        lookup(rt, l, offset)?;
    }
    Ok(())
}

// Examples a to i, of layout A.
fn of_layout_a(rt: &impl Print, l: Layout) -> io::Result<()> {
    let lookups = [
        ("a", 2097151),
        ("b", 2097152),
        ("c", 3145733),
        ("d", 16777215),
        ("e", 16777216),
        ("f", 18446744073709551615),
    ];
    for (example, offset) in lookups {
        print!(rt; "{example}: A, byte {offset}: ")?;
        lookup(rt, l, offset)?;
    }
    for (example, byte) in [("g", 1048576), ("h", 0)] {
        print!(rt; "{example}: A, back from target 2 object 12 byte {byte}: ")?;
        back(rt, l, 2, 12, byte)?;
    }
    print!(rt; "i: A, cut 4 bytes from 2097150: ")?;
    cut(rt, l, 2097150, 4)
}

// Examples a to i.
pub(crate) fn examples(rt: &impl Print) -> io::Result<()> {
    match reading::gathered(&pages::A) {
        Ok(l) => of_layout_a(rt, l),
        Err(refusal) => println!(rt; "A: refused {refusal}"),
    }
}
