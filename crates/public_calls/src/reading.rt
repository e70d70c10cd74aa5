// Pages are taken into a collector that is lent to every call, and the layout is taken out of it.
use crate::pages;
use collector::{Answer, Collector};
use layout::Layout;
use refusals::Refusal;
use std::io;

// Takes a page, and prints the answer and what the collector has then.
fn take(rt: &impl Print, c: &mut Collector, page: &[u8]) -> io::Result<()> {
    match moorsickle::take_page(c, page) {
        Ok(Answer::More) => print!(rt; "more wanted")?,
        Ok(Answer::Complete) => print!(rt; "complete")?,
        Err(refusal) => print!(rt; "refused {refusal}")?,
    }
    println!(rt; ", pages {}, components {}", c.pages, c.layout.count)
}

// Takes the layout out of the collector, and prints its generation and how many components it has, or the refusal.
fn give(rt: &impl Print, c: &Collector) -> io::Result<Option<Layout>> {
    let out = moorsickle::layout_of(c);
    match out {
        Ok(l) => println!(rt; "generation {}, components {}", l.generation, l.count)?,
        Err(refusal) => println!(rt; "refused {refusal}")?,
    }
    Ok(out.ok())
}

// The layout of one page.
pub(crate) fn gathered(page: &[u8]) -> Result<Layout, Refusal> {
    let mut c = moorsickle::new_collector();
    moorsickle::take_page(&mut c, page)?;
    moorsickle::layout_of(&c)
}

// What a collector holds of layout B after page 0, with three pages outstanding. Its component alone keeps every rule.
pub(crate) fn outstanding() -> Result<Layout, Refusal> {
    let mut c = moorsickle::new_collector();
    moorsickle::take_page(&mut c, &pages::B_0)?;
    Ok(c.layout)
}

// Document 01's page of 72 bytes. Gives its layout.
pub(crate) fn one_page(rt: &impl Print) -> io::Result<Option<Layout>> {
    let mut c = moorsickle::new_collector();
    print!(rt; "one page: ")?;
    take(rt, &mut c, &pages::ONE)?;
    print!(rt; "one page, its layout: ")?;
    give(rt, &c)
}

// The first pages of layout B: page 0 is first sent with another mark, and page 1 before it.
fn page_0(rt: &impl Print, c: &mut Collector) -> io::Result<()> {
    print!(rt; "B, the layout of a new collector: ")?;
    give(rt, c)?;
    let mut other = pages::B_0;
    other[1] = 0x49;
    print!(rt; "B, page 0 with the mark 50 49: ")?;
    take(rt, c, &other)?;
    print!(rt; "B, page 1 before page 0: ")?;
    take(rt, c, &pages::B_1)?;
    print!(rt; "B, page 0 sent again: ")?;
    take(rt, c, &pages::B_0)
}

// Page 1 of layout B, after page 2 and another page 1 were refused.
fn page_1(rt: &impl Print, c: &mut Collector) -> io::Result<()> {
    print!(rt; "B, page 2 before page 1: ")?;
    take(rt, c, &pages::B_2)?;
    let mut other = pages::B_1;
    other[8] = 10;
    print!(rt; "B, page 1 of generation 10: ")?;
    take(rt, c, &other)?;
    print!(rt; "B, page 1 sent again: ")?;
    take(rt, c, &pages::B_1)
}

// The last pages of layout B, and one after them.
fn last_pages(rt: &impl Print, c: &mut Collector) -> io::Result<()> {
    print!(rt; "B, the layout with two pages outstanding: ")?;
    give(rt, c)?;
    print!(rt; "B, page 2: ")?;
    take(rt, c, &pages::B_2)?;
    print!(rt; "B, page 3: ")?;
    take(rt, c, &pages::B_3)?;
    print!(rt; "B, page 3 after the last: ")?;
    take(rt, c, &pages::B_3)
}

// Layout B in four pages, with pages refused and sent again. Gives the layout.
pub(crate) fn four_pages(rt: &impl Print) -> io::Result<Option<Layout>> {
    let mut c = moorsickle::new_collector();
    page_0(rt, &mut c)?;
    page_1(rt, &mut c)?;
    last_pages(rt, &mut c)?;
    print!(rt; "B, its layout: ")?;
    give(rt, &c)
}

// A collector that breaks the rules of a collector: a page call refuses it, and so does the layout call.
fn broken(rt: &impl Print, c: &mut Collector) -> io::Result<()> {
    print!(rt; ", take_page: ")?;
    take(rt, c, &pages::ONE)?;
    print!(rt; "the same collector, layout_of: ")?;
    give(rt, c)?;
    Ok(())
}

// Collectors that break the rules of a collector.
pub(crate) fn broken_collectors(rt: &impl Print) -> io::Result<()> {
    let mut c = moorsickle::new_collector();
    c.layout.complete = true;
    print!(rt; "a collector that is complete with no pages")?;
    broken(rt, &mut c)?;
    let mut d = moorsickle::new_collector();
    d.pages = 1;
    print!(rt; "a collector with a page and no components")?;
    broken(rt, &mut d)
}
