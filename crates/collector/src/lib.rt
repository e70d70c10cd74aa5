// The collector: gathers a layout from pages, one page at a time.
#![tactic(auto)]

ghost use Rattle.std.specs.Prelude.{◌≡◌, true, false, map, ℕ, ◌+◌, ◌≤◌, ◌<◌, length, get_or};
ghost use Rattle.layout.specs.Records.{packed};
ghost use Rattle.page.specs.Form.{component_end};
ghost use Rattle.page.specs.Content.{component_at, head_of, components_of};
ghost use Rattle.page.specs.Walked.{Walked};
ghost use Rattle.collector.specs.Collector.{new_collector, gathered, collector_ok};
ghost use Rattle.collector.specs.Taking.{take_says, is_next, joined, content_in, open_in, page_in};
ghost use Rattle.collector.specs.Giving.{layout_says, layout_out};

use layout::Layout;
use page::Head;
use refusals::Refusal;

pub mod run;

// What was gathered so far: the number of pages taken, and the components, as the first of a layout. The layout is
// complete if the last page was among them; with pages outstanding it is not, and no call takes it as a layout.
#[derive(Clone, Copy)]
pub struct Collector {
    pub pages: usize,
    pub layout: Layout,
}

// What a page call answers if the page was taken.
#[derive(Clone, Copy, PartialEq, Eq)]
pub enum Answer {
    // More pages are wanted.
    More,
    // The page was the last.
    Complete,
}

// A collector that has taken no page.
pub fn new_collector() -> Collector
    ensures { result ≡ new_collector }
{
    Collector {
        pages: 0,
        layout: layout::no_layout(),
    }
}

impl Collector {
    ghost use Rattle.collector.specs.Collector.{counts_agree};

    // Do its numbers agree: no pages exactly if no components, then not complete, and never more pages than components?
    #[tactic(auto, unfolding(crate::specs::Collector::counts_agree))]
    fn counts_agree(&self) -> bool
        ensures { result ≡ counts_agree self.now.pages self.now.layout.complete self.now.layout.count }
    {
        let count = self.layout.count;
        ((self.pages == 0) == (count == 0))
            && !(self.layout.complete && self.pages == 0)
            && self.pages <= count
    }
}

// Does refusal 1 not apply to the collector?
pub fn is_sound(c: Collector) -> bool
    ensures { result ≡ collector_ok c }
{
    let l = c.layout;
    l.count <= 16 && c.counts_agree() && layout::check_rules(l, !l.complete).is_ok()
}

// Refusal 4 does not apply: the page number is the next after the pages taken, and the generation that of page 0.
#[tactic(auto, unfolding(crate::specs::Taking::is_next))]
pub fn is_next(pages: usize, generation: u32, h: Head) -> bool
    ensures { result ≡ is_next pages generation h }
{
    usize::from(h.number) == pages && (pages == 0 || h.generation == generation)
}

// The layout with the components at the places of the bytes after its own. Its generation and whether it is complete
// are what the head of the page says.
fn with_components(l: Layout, head: Head, s: &[u8], places: &[usize]) -> Layout
    requires { (l.count + length places.now ≤ 16)
        × ((i : ℕ) → i < length places.now → component_end s.now (get_or places.now i 0) ≤ length s.now) }
    ensures { (result ≡ joined head l (map (component_at s.now) places.now)) × (length l.components ≡ 16) }
{
    let mut components = l.components;
    for (i, place) in places.iter().enumerate() {
        components[l.count + i] = page::decode::component_at(s, *place);
    }
    Layout {
        generation: head.generation,
        count: l.count + places.len(),
        components,
        complete: !head.more,
    }
}

// Takes a page of good form by what it says: 4 to 8 are asked. The places of its components are the first of these.
fn take_walked(c: &mut Collector, page: &[u8], places: &[usize; 16]) -> Result<Answer, Refusal>
    requires { (collector_ok c.old ≡ true) × (c.old.layout.complete ≡ false) × Walked page.now places.now }
    ensures { take_says result c.new ≡ content_in c.old (head_of page.now) (components_of page.now) }
{
    let head = Head::read(page);
    if !is_next(c.pages, c.layout.generation, head) {
        return Err(Refusal::PageNumber);
    }
    let from = c.layout.count;
    let n = usize::from(head.count);
    if 16 < from + n {
        return Err(Refusal::Over16);
    }
    let next = with_components(c.layout, head, page, &places[..n]);
    layout::check_rules_from(next, head.more, from)?;
    c.pages += 1;
    c.layout = next;
    Ok(if head.more {
        Answer::More
    } else {
        Answer::Complete
    })
}

// Takes a page into a collector that is known to keep the rules: 2 to 8 are asked.
#[tactic(auto, unfolding(crate::specs::Taking::open_refusal, crate::specs::Taking::settled))]
pub fn take_next(c: &mut Collector, page: &[u8]) -> Result<Answer, Refusal>
    requires { collector_ok c.old ≡ true }
    ensures { take_says result c.new ≡ open_in c.old page.now }
{
    if c.layout.complete {
        return Err(Refusal::AfterLastPage);
    }
    let mut places = [0; 16];
    if !page::form::walk_page(page, &mut places) {
        return Err(Refusal::Form);
    }
    take_walked(c, page, &places)
}

// Takes a page into the collector. It answers that more pages are wanted, or that the collector is complete; refused by
// 1 to 8, and then the collector stays as it was.
#[tactic(auto, unfolding(crate::specs::Taking::page_refusal, crate::specs::Taking::settled))]
pub fn take_page(c: &mut Collector, page: &[u8]) -> Result<Answer, Refusal>
    ensures { take_says result c.new ≡ page_in c.old page.now }
{
    if !is_sound(*c) {
        return Err(Refusal::NotValid);
    }
    take_next(c, page)
}

// The layout of the gathered components.
fn layout_in(c: &Collector) -> Layout
    requires { c.now.layout.count ≤ 16 }
    ensures { result ≡ packed c.now.layout.generation (gathered c.now) }
{
    layout::pack(c.layout.generation, c.layout.components())
}

// The layout out of a complete collector. Refused by 1 if the collector breaks the rules, or is not complete.
#[tactic(auto, unfolding(crate::specs::Giving::layout_out))]
pub fn layout_of(c: &Collector) -> Result<Layout, Refusal>
    ensures { layout_says result ≡ layout_out c.now }
{
    if is_sound(*c) && c.layout.complete {
        Ok(layout_in(c))
    } else {
        Err(Refusal::NotValid)
    }
}
