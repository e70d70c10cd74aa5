// Growth: document 01's examples j to m, and calls that are refused.
use crate::end_line;
use free_table::TargetRecord;
use growth::Effect;
use layout::{Component, Layout};
use refusals::Refusal;
use std::io;

// A record of a free table.
pub(crate) fn record(target: u32, free: u64, next: u64) -> TargetRecord {
    TargetRecord { target, free, next }
}

// Prints whether the offset has a home now and whether the layout was changed, or the refusal.
fn put_answer(rt: &impl Print, out: Result<Effect, Refusal>) -> io::Result<()> {
    match out {
        Ok(effect) => {
            let home = if effect.home { "home" } else { "no home" };
            let changed = if effect.changed {
                "changed"
            } else {
                "unchanged"
            };
            print!(rt; "{home}, {changed}")
        }
        Err(refusal) => print!(rt; "refused {refusal}"),
    }
}

// Prints the id and the extent of a component, and the target of its first object record if it has one.
fn put_component(rt: &impl Print, c: &Component) -> io::Result<()> {
    print!(rt; "; {} [{}, {})", c.id, c.begin, c.end)?;
    match c.objects().first() {
        Some(object) => print!(rt; " on {}", object.target),
        None => Ok(()),
    }
}

// Prints the generation and the components of a layout.
fn put_layout(rt: &impl Print, l: &Layout) -> io::Result<()> {
    print!(rt; "; generation {}", l.generation)?;
    for c in l.components.iter().take(l.count) {
        put_component(rt, c)?;
    }
    Ok(())
}

// Grows the layout with the mark 1000, and prints the answer, and the layout and the next numbers then.
fn grow(rt: &impl Print, l: &mut Layout, offset: u64, table: [TargetRecord; 2]) -> io::Result<()> {
    let mut lent = table;
    put_answer(rt, moorsickle::grow(l, offset, 1000, &mut lent))?;
    put_layout(rt, l)?;
    println!(rt; "; next numbers {} {}", lent[0].next, lent[1].next)
}

// Examples j to m, from layout B.
pub(crate) fn examples(rt: &impl Print, b: Layout) -> io::Result<()> {
    let mut l = b;
    print!(rt; "j: B, byte 16777216, none low: ")?;
    grow(
        rt,
        &mut l,
        16777216,
        [record(0, 1000, 20), record(1, 1000, 30)],
    )?;
    print!(rt; "k: then byte 33554432, 0 low, 1 usable: ")?;
    grow(
        rt,
        &mut l,
        33554432,
        [record(0, 999, 20), record(1, 1000, 30)],
    )?;
    print!(rt; "l: then byte 58720256, 1 low, 0 usable: ")?;
    grow(
        rt,
        &mut l,
        58720256,
        [record(0, 1000, 20), record(1, 999, 31)],
    )?;
    print!(rt; "m: then byte 83886080, both low: ")?;
    grow(
        rt,
        &mut l,
        83886080,
        [record(0, 999, 21), record(1, 999, 31)],
    )
}

// Grows the layout with the mark 1000, and prints the answer and whether the lent table stays.
pub(crate) fn refused<const N: usize>(
    rt: &impl Print,
    l: Layout,
    offset: u64,
    table: [TargetRecord; N],
) -> io::Result<()> {
    let mut grown = l;
    let mut lent = table;
    put_answer(rt, moorsickle::grow(&mut grown, offset, 1000, &mut lent))?;
    end_line(rt, lent == table)
}

// Calls that are refused, from layout B.
pub(crate) fn refusals(rt: &impl Print, b: Layout) -> io::Result<()> {
    print!(rt; "B, byte 16777216, a table that is not rising: ")?;
    refused(rt, b, 16777216, [record(1, 1000, 30), record(0, 1000, 20)])?;
    print!(rt; "B, byte 16777216, a table of 65 records: ")?;
    let mut long = [record(0, 1000, 7); 65];
    for (r, target) in long.iter_mut().zip(0..) {
        r.target = target;
    }
    refused(rt, b, 16777216, long)?;
    print!(rt; "B, byte 16777216, no target usable: ")?;
    refused(rt, b, 16777216, [record(0, 999, 20), record(1, 999, 30)])
}
