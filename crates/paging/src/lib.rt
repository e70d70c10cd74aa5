// Writes one page of a layout, by its number, into a lent buffer.
#![tactic(auto)]

ghost use Rattle.std.specs.Prelude.{◌≡◌, true, ◌+◌, ◌≤◌, length, sum};
ghost use Rattle.std.proofs.lemmas.List.Edits.{sets};
ghost use Rattle.layout.specs.Records.{view};
ghost use Rattle.layout.specs.Rules.{valid};
ghost use Rattle.page.specs.Bytes.{components_bytes};
ghost use Rattle.paging.specs.Paging.{in_page, sizes_of, from_page, written_page};
ghost use Rattle.paging.specs.Paging.{write_refusal, out_refusal, out_answer, out_buffer};
ghost use Rattle.refusals.specs.Numbered.{numbered};

use layout::{Component, Layout};
use page::{Head, encode};
use refusals::Refusal;

// How many of the components, from the first on, go into one page.
fn in_page(components: &[Component]) -> usize
    ensures { (result ≡ in_page (sizes_of components.now))
        × (result ≤ length components.now) }
{
    let mut room = 496;
    for (i, c) in components.iter().enumerate() {
        let size = encode::size_of(c);
        if room < size {
            return i;
        }
        room -= size;
    }
    components.len()
}

// The components that are in page `number` or a later one.
fn from_page(components: &[Component], number: u64) -> &[Component]
    ensures { result.now ≡ from_page number components.now }
{
    let mut rest = components;
    for _ in 0..number {
        if rest.is_empty() {
            return rest;
        }
        rest = &rest[in_page(rest)..];
    }
    rest
}

// The bytes of a page with the components.
fn page_size(components: &[Component]) -> usize
    requires { 16 + sum (sizes_of components.now) ≤ 512 }
    ensures { result ≡ 16 + sum (sizes_of components.now) }
{
    16 + components.iter().map(encode::size_of).sum::<usize>()
}

// Writes components, one after the other, after the head.
fn put_components(buffer: &mut [u8], components: &[Component])
    requires { 16 + length (components_bytes components.now) ≤ length buffer.old }
    ensures { buffer.new ≡ sets buffer.old 16 (components_bytes components.now) }
{
    let mut at = 16;
    for c in components {
        at = encode::put_component(buffer, at, c);
    }
}

// Writes page `number` of a layout that is known to be valid into the first bytes of the buffer; what is after
// them stays. Gives how many bytes were written. Refused if there is no such page, and if the buffer is shorter than
// the page: the buffer then stays as it was.
pub fn write_page(l: Layout, number: u64, buffer: &mut [u8]) -> Result<usize, Refusal>
    requires { valid l ≡ true }
    ensures { let refusal = write_refusal l number (length buffer.old) in
        (numbered result ≡ out_answer refusal (written_page l number))
        × (buffer.new ≡ out_buffer refusal (written_page l number) buffer.old) }
{
    let rest = from_page(l.components(), number);
    if rest.is_empty() {
        return Err(Refusal::PageNumber);
    }
    let (components, later) = rest.split_at(in_page(rest));
    let bytes = page_size(components);
    if buffer.len() < bytes {
        return Err(Refusal::Buffer);
    }
    let head = Head {
        more: !later.is_empty(),
        number: number as u16,
        count: components.len() as u16,
        generation: l.generation,
    };
    head.write(buffer);
    put_components(buffer, components);
    Ok(bytes)
}

// Writes page `number` of a layout into the first bytes of the buffer, by the same rules; refused too if the layout is
// not valid.
#[tactic(auto, unfolding(crate::specs::Paging::out_refusal, crate::specs::Paging::out_answer, crate::specs::Paging::out_buffer))]
pub fn page_out(l: Layout, number: u64, buffer: &mut [u8]) -> Result<usize, Refusal>
    ensures { let refusal = out_refusal l number (length buffer.old) in
        (numbered result ≡ out_answer refusal (written_page l number))
        × (buffer.new ≡ out_buffer refusal (written_page l number) buffer.old) }
{
    if !layout::is_valid(l) {
        return Err(Refusal::NotValid);
    }
    write_page(l, number, buffer)
}
