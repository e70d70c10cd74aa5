// Reads the host's pages in place. The pages are back to back, each ending after the records that its head counts.
// What is noted of a page is where its components are in the bytes; no component is copied.
#![tactic(auto)]

ghost use Rattle.std.specs.Prelude.{◌≡◌, ◌+◌, ◌≤◌, min, length, drop};
ghost use Rattle.refusals.specs.Refusals.{number_in};
ghost use Rattle.page.specs.Content.{head_of};
ghost use Rattle.page.specs.Walked.{Walks};
ghost use Rattle.placed_run.specs.Placing.{placed_next, placed_run};
ghost use Rattle.placed_run.specs.Progress.{none_taken, placed_of, InRange};
ghost use Rattle.placed_run.specs.Found.{Finds};

use page::Head;
use refusals::Refusal;

// How far a reading has come: where the next page begins; the number of pages taken; their generation; whether more
// pages are wanted; and how many components the pages taken have.
#[derive(Clone, Copy)]
pub struct Progress {
    pub at: usize,
    pub pages: usize,
    pub generation: u32,
    pub more: bool,
    pub count: usize,
}

// What reading finds: the generation, and the number of components, whose places then are in the first positions.
#[derive(Clone, Copy)]
pub struct Found {
    pub generation: u32,
    pub count: usize,
}

// Walks over the page that begins at `at` and stores the places of its components from position n on, as far as there
// are positions. Gives how many bytes the page has, or `None` if it has not its form: also if it would have more than
// 512.
fn walk_next(s: &[u8], at: usize, n: usize, places: &mut [usize; 16]) -> Option<usize>
    requires { (at ≤ length s.now) × (n ≤ 16) × (length places.old ≡ 16) }
    ensures { let t = drop at s.now in
        Walks (min 512 (length t)) t at n places.old places.new result }
{
    let rest = &s[at..];
    page::form::walk(rest, rest.len().min(512), at, n, places)
}

// What the head of the page says that begins at `at`.
fn head_next(s: &[u8], at: usize) -> Head
    requires { at + 16 ≤ length s.now }
    ensures { result ≡ head_of (drop at s.now) }
{
    Head::read(&s[at..])
}

// Takes the page that begins where the reading has come to. Refused by 1 if no bytes are left, by 3 to 5 as a
// collector refuses it, and by 6 or 7 if its components break the rules of fields or of neighbours after those
// taken before; then the reading has come no further.
fn take_next(s: &[u8], p: &mut Progress, places: &mut [usize; 16]) -> Result<(), Refusal>
    requires { InRange s.now p.old places.old }
    ensures { (placed_of (number_in result) p.new places.new
        ≡ placed_next s.now (placed_of 0 p.old places.old))
        × InRange s.now p.new places.new }
{
    if s.len() <= p.at {
        return Err(Refusal::NotValid);
    }
    let bytes = walk_next(s, p.at, p.count, places).ok_or(Refusal::Form)?;
    let head = head_next(s, p.at);
    if !collector::is_next(p.pages, p.generation, head) {
        return Err(Refusal::PageNumber);
    }
    let from = p.count;
    let to = from + head.count as usize;
    if 16 < to {
        return Err(Refusal::Over16);
    }
    let (old, new) = places[..to].split_at(from);
    in_place::neighbours::check_new(s, old, new, head.more)?;
    *p = Progress {
        at: p.at + bytes,
        pages: p.pages + 1,
        generation: head.generation,
        more: head.more,
        count: to,
    };
    Ok(())
}

// Reads the pages one after another until no more are wanted or one is refused.
fn read_on(s: &[u8], p: &mut Progress, places: &mut [usize; 16]) -> Result<(), Refusal>
    requires { (p.old ≡ none_taken) × (length places.old ≡ 16) }
    ensures { (placed_of (number_in result) p.new places.new ≡ placed_run s.now)
        × InRange s.now p.new places.new }
{
    while p.more {
        take_next(s, p, places)?;
    }
    Ok(())
}

// Reads the pages. 1 to 7 are asked page by page; distinctness, 8, once at the end, of the pages that were taken; then
// 2, that bytes are after the last page.
// The array of places is scratch memory, which no public call shows. What is said of it at exit: it has 16 places, and
// if the reading is not refused, the first of them are the places of the components. The other places, and all of them
// if the reading is refused, are left open.
pub fn read(s: &[u8], places: &mut [usize; 16]) -> Result<Found, Refusal>
    requires { length places.old ≡ 16 }
    ensures { Finds s.now result places.new }
{
    let mut p = Progress {
        at: 0,
        pages: 0,
        generation: 0,
        more: true,
        count: 0,
    };
    let end = read_on(s, &mut p, places);
    if !in_place::distinct::distinct(s, &places[..p.count]) {
        return Err(Refusal::Distinctness);
    }
    end?;
    if p.at < s.len() {
        return Err(Refusal::AfterLastPage);
    }
    Ok(Found {
        generation: p.generation,
        count: p.count,
    })
}
