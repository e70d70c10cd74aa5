// A layout that breaks the rules, or is not complete: every call that takes a layout refuses it by 1.
use crate::growing::record;
use crate::{growing, mapped, reading, writing};
use layout::Layout;
use std::io;

// Hands the layout to every call.
fn layout(rt: &impl Print, l: Layout) -> io::Result<()> {
    print!(rt; ", page_out: ")?;
    writing::refused(rt, l, 0)?;
    print!(rt; "the same layout, lookup: ")?;
    mapped::lookup(rt, l, 0)?;
    print!(rt; "the same layout, back: ")?;
    mapped::back(rt, l, 0, 10, 0)?;
    print!(rt; "the same layout, cut: ")?;
    mapped::cut(rt, l, 0, 4)?;
    print!(rt; "the same layout, grow: ")?;
    growing::refused(rt, l, 16777216, [record(0, 1000, 20), record(1, 1000, 30)])
}

// Layout B with id 0 in its first component, and with more components than there are places; and what a collector holds
// of it after page 0 of four.
pub(crate) fn layouts(rt: &impl Print, b: Layout) -> io::Result<()> {
    let mut l = b;
    l.components[0].id = 0;
    print!(rt; "B with the id 0")?;
    layout(rt, l)?;
    let mut m = b;
    m.count = 17;
    print!(rt; "B with 17 components")?;
    layout(rt, m)?;
    print!(rt; "B with three pages outstanding")?;
    match reading::outstanding() {
        Ok(l) => layout(rt, l),
        Err(refusal) => println!(rt; ": refused {refusal}"),
    }
}
