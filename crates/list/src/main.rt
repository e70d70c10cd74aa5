// Lists the layout whose pages are on standard input, each after its length: prints the lines of the layout, or the
// line of the first refusal.
#![tactic(auto)]

ghost use Rattle.std.specs.Prelude.{◌≤◌, length, IfOk};

use std::io;
use std::io::Read;

// Reads until the buffer is full or the input ends, and tells how many bytes it put at the start of the buffer. Proved
// is that it ends and that so many bytes are in the buffer; no contract can name what a stream gives, so that all of it
// is read is shown by the samples.
fn read_full<R: Read>(input: &mut R, buffer: &mut [u8]) -> io::Result<usize>
    ensures { IfOk result (λ n. n ≤ length buffer.new) }
{
    let mut done = 0;
    while done < buffer.len() {
        match input.read(&mut buffer[done..])? {
            0 => break,
            n => done += n,
        }
    }
    Ok(done)
}

// It reads the first 65,536 bytes and no more. By the law `listing_first` of crate `listing` the first 8,739 decide the
// listing: at most 16 pages are taken, and of what follows them only the next page is looked at.
fn main(rt: HostRuntime) -> io::Result<()> {
    let mut input = [0u8; 65536];
    let length = read_full(&mut rt.stdin(), &mut input)?;
    let mut text = [0u8; 4096];
    let end = listing::list(&input[..length], &mut text);
    rt.write_all(&text[..end])
}
