// Growth: one call makes one step, for the component that holds an offset. It gives the layout afterwards, and raises
// the next numbers of the chosen targets in the free table that is lent.
#![tactic(auto)]

ghost use Rattle.std.specs.Prelude.{◌≡◌, true};
ghost use Rattle.layout.specs.Rules.{valid};
ghost use Rattle.growth_rules.specs.Growing.{grow_of, grow_in};
ghost use Rattle.growth.specs.Answers.{call_of, GrownSays};

use free_table::TargetRecord;
use layout::{Component, Layout};
use refusals::Refusal;

pub mod changing;
pub mod components;
pub mod outcomes;
pub mod plans;

// What an accepted call did: does the offset now have a home, and did the layout change?
#[derive(Clone, Copy, PartialEq, Eq)]
pub struct Effect {
    pub home: bool,
    pub changed: bool,
}

// What an accepted call gives: what it did, and the layout afterwards.
#[derive(Clone, Copy)]
pub struct Grown {
    pub effect: Effect,
    pub layout: Layout,
}

// What a step puts in place of components: the `old` ones from position `at` on give way to `made`, which is init, and
// to `left` after it if an extension has bytes left. The first `chosen` object records of `made` are newly chosen.
#[derive(Clone, Copy)]
pub struct Change {
    pub at: usize,
    pub old: usize,
    pub made: Component,
    pub left: Option<Component>,
    pub chosen: usize,
}

// Makes one step of growth for the component that holds the offset. `mark` is the low mark in bytes. Refused by
// `NotValid` if the layout is not valid, `PastEnd` if the offset lies at or past the last component's end, `Table` if
// the table is bad, `TooFewTargets` if too few targets are usable, `GrownOver16` if 17 components would be left,
// `ObjectInLayout` if a chosen target and number are in the layout already, `Generation` if a change is due and the
// generation is 2^32 - 1: the table then stays as it was.
pub fn grow(l: Layout, offset: u64, mark: u64, table: &mut [TargetRecord]) -> Result<Grown, Refusal>
    ensures { GrownSays l result table.new (grow_of l (call_of offset mark table.old)) }
{
    if !layout::is_valid(l) {
        return Err(Refusal::NotValid);
    }
    grow_valid(l, offset, mark, table)
}

// The same, of a layout that is known to be valid.
pub fn grow_valid(
    l: Layout,
    offset: u64,
    mark: u64,
    table: &mut [TargetRecord],
) -> Result<Grown, Refusal>
    requires { valid l ≡ true }
    ensures { GrownSays l result table.new (grow_in l (call_of offset mark table.old)) }
{
    let i = layout::holder(l, offset).ok_or(Refusal::PastEnd)?;
    if !free_table::table_ok(table) {
        return Err(Refusal::Table);
    }
    let plan = plans::plan_at(&l, i, mark, table);
    outcomes::of_step(l, offset, mark, table, plan)
}
