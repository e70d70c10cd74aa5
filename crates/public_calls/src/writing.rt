// Pages are written into a lent buffer.
ghost use Rattle.std.specs.Prelude.{◌≤◌};

use crate::{end_line, pages};
use layout::Layout;
use refusals::Refusal;
use std::io;

// What the buffer has before a call.
const FILLER: u8 = 0xA5;

// Prints the answer of a call that writes a page.
fn put_answer(rt: &impl Print, out: Result<usize, Refusal>) -> io::Result<()> {
    match out {
        Ok(bytes) => print!(rt; "{bytes} bytes"),
        Err(refusal) => print!(rt; "refused {refusal}"),
    }
}

// Writes document 01's page again: the same bytes.
fn again(rt: &impl Print, l: Layout) -> io::Result<()> {
    let mut buffer = [FILLER; 72];
    put_answer(rt, moorsickle::page_out(l, 0, &mut buffer))?;
    let bytes = if buffer == pages::ONE {
        "the same"
    } else {
        "other"
    };
    println!(rt; ", {bytes}")
}

// Asks for a page in the first bytes of a buffer, and prints the answer and whether the buffer stays.
fn into(rt: &impl Print, l: Layout, number: u64, room: usize) -> io::Result<()>
    requires { room ≤ 80 }
{
    let mut buffer = [FILLER; 80];
    put_answer(rt, moorsickle::page_out(l, number, &mut buffer[..room]))?;
    end_line(rt, buffer == [FILLER; 80])
}

// Asks for a page in a buffer of 80 bytes.
pub(crate) fn refused(rt: &impl Print, l: Layout, number: u64) -> io::Result<()> {
    into(rt, l, number, 80)
}

// Document 01's page is written again, and is refused a buffer that is too short and a number that it does not have.
pub(crate) fn one_page(rt: &impl Print, l: Layout) -> io::Result<()> {
    print!(rt; "one page, written again: ")?;
    again(rt, l)?;
    print!(rt; "one page, into 71 bytes: ")?;
    into(rt, l, 0, 71)?;
    print!(rt; "one page, its page 1: ")?;
    refused(rt, l, 1)
}
