// The listing of a layout as text.
#![tactic(auto)]

ghost use Rattle.std.specs.Prelude.{◌≡◌, ◌≤◌, [], length};
ghost use Rattle.std.proofs.lemmas.List.Edits.{sets};
ghost use Rattle.listing.specs.Listing.{listing_of};

use crate::text::Text;

mod lines;
mod text;

// Reads pages, each after its length, and gives their listing.
fn listing_of(input: &[u8]) -> Text
    ensures { result.bytes ≡ listing_of input.now }
{
    let mut text = Text::new();
    match collector::run::read_listed(input) {
        Ok(reading) => lines::push_layout(&mut text, &reading.layout),
        Err(refused) => lines::push_refused(&mut text, refused.refusal, refused.page),
    }
    text
}

// Reads pages, each after its length, writes their listing into the first bytes of `out`, and tells its length. The
// bytes after it stay. A listing has at most 17 lines of at most 144 bytes, so 2448 bytes are room for every one.
//
// A listing longer than `out` is cut at its end: `out` receives its first bytes, as many as there is room for
// (`cut_text`). The answer is the length of the whole listing: if it is above the length of `out`, the text was cut,
// and it tells how much room the text needs.
pub fn list(input: &[u8], out: &mut [u8]) -> usize
    ensures value { (result ≡ length (listing_of input.now))
        × (out.new ≡ sets out.old 0 (listing_of input.now)) }
    ensures upper_bound { result ≤ 2448 }
{
    let text = listing_of(input);
    let n = text.len().min(out.len());
    out[..n].copy_from_slice(&text.as_bytes()[..n]);
    text.len()
}
