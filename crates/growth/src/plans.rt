// The plan of a step: what it puts in place of which components.
ghost use Rattle.std.specs.Prelude.{◌≡◌, true, ◌+◌, ◌<◌, ◌≤◌, drop, length};
ghost use Rattle.layout.specs.Records.{ids_of, view};
ghost use Rattle.layout.specs.Rules.{valid};
ghost use Rattle.layout.specs.Facts.{Fields};
ghost use Rattle.free_table.specs.Table.{table_ok};
ghost use Rattle.growth_rules.specs.Parts.{fresh_id};
ghost use Rattle.growth.specs.Plans.{replacing, granting, choosing_plan, held_plan, follow_plan, spill_plan};
ghost use Rattle.growth.specs.Plans.{plan_of, repeat_plan, low_plan, extension_plan, plan_at};

use crate::{Change, components};
use free_table::TargetRecord;
use layout::{Component, Layout};
use refusals::Refusal;

// A good free table with a low mark, in bytes.
#[derive(Clone, Copy)]
struct MarkedTable<'a> {
    table: &'a [TargetRecord],
    mark: u64,
    ghost good: { table_ok table.now ≡ true },
}

// One component in place of `old` from position `at` on. No extension is left.
fn replacing(at: usize, old: usize, made: Component) -> Change
    ensures { result ≡ replacing at old made }
{
    Change {
        at,
        old,
        made,
        left: None,
        chosen: 0,
    }
}

// The component c in place of `old` components from position `at` on, the last of which is the extension x: c ends at
// the lower of `from` + the size of x and the end of x, and what is left of x is after it.
fn granting(at: usize, old: usize, c: Component, x: Component, from: u64) -> Change
    ensures { result ≡ granting at old c x from }
{
    let end = components::reach(from, x);
    let left = if end == x.end {
        None
    } else {
        Some(components::with_extent(x, end, x.end))
    };
    Change {
        at,
        old,
        made: components::with_extent(c, c.begin, end),
        left,
        chosen: 0,
    }
}

// The component m, which begins where the extension at position j + 1 began, is in place of that extension and of the
// component after it; an extension that follows these gives a part to m. `after` are the components that follow.
fn follow_plan(j: usize, m: Component, after: &[Component]) -> Change
    requires { j < 16 }
    ensures { result ≡ follow_plan j m after.now }
{
    match after {
        [] => replacing(j + 1, 2, m),
        [y, ..] => if y.extension {
            granting(j + 1, 3, m, *y, m.begin)
        } else {
            replacing(j + 1, 2, m)
        },
    }
}

impl MarkedTable<'_> {
    // The change with targets chosen for the component that it makes.
    fn choosing(self, p: Change) -> Result<Change, Refusal>
        requires { p.made.stripe_count ≤ 16 }
        ensures { result ≡ choosing_plan self.entry.mark self.entry.table.now p }
    {
        let s = p.made.stripe_count as usize;
        let choice = free_table::choose(self.table, self.mark, s);
        if choice.count != s {
            return Err(Refusal::TooFewTargets);
        }
        Ok(Change {
            made: components::init_with(p.made, choice.items),
            chosen: s,
            ..p
        })
    }

    // The component c at position i, which is no extension, holds the offset.
    fn held_plan(self, i: usize, c: Component) -> Result<Option<Change>, Refusal>
        requires { c.stripe_count ≤ 16 }
        ensures { result ≡ held_plan self.entry.mark self.entry.table.now i c }
    {
        if c.init || c.extension {
            return Ok(None);
        }
        let change = self.choosing(replacing(i, 1, c))?;
        Ok(Some(change))
    }

    // Spill-over: the extension x at position j + 1 goes, and the component after it, `next`, begins where x began.
    // `after` are the components after `next`.
    fn spill_plan(
        self,
        j: usize,
        x: Component,
        next: Component,
        after: &[Component],
    ) -> Result<Change, Refusal>
        requires { (j < 16) × (next.stripe_count ≤ 16) }
        ensures { result ≡ spill_plan self.entry.mark self.entry.table.now j x next after.now }
    {
        let m = components::with_extent(next, x.begin, next.end);
        if next.init {
            return Ok(replacing(j + 1, 2, m));
        }
        self.choosing(follow_plan(j, m, after))
    }

    // Repeat: a new component like c, which is at position j, is before the extension x after c and takes the grant. If
    // too few targets are usable, c takes it: forced extension.
    fn repeat_plan(self, j: usize, c: Component, x: Component, id: u16) -> Change
        requires { (j < 16) × (c.stripe_count ≤ 16) }
        ensures { result ≡ repeat_plan self.entry.mark self.entry.table.now id j c x }
    {
        let base = components::repeat_base(c, id, x.begin);
        let repeat = granting(j + 1, 1, base, x, x.begin);
        let grant = granting(j, 2, c, x, x.begin);
        self.choosing(repeat).unwrap_or(grant)
    }

    // The extension x at position j + 1 holds the offset, and c before it, which is init, has a low target.
    fn low_plan(
        self,
        components: &[Component],
        j: usize,
        c: Component,
        x: Component,
    ) -> Result<Change, Refusal>
        requires { (length components.now ≤ 16)
            × (j + 1 < length components.now)
            × Fields components.now
            × (c.stripe_count ≤ 16) }
        ensures { let new = fresh_id (ids_of components.now) in
            result ≡ low_plan self.entry.mark self.entry.table.now new j c x (drop (j + 2) components.now) }
    {
        match &components[j + 2..] {
            [] => Ok(self.repeat_plan(j, c, x, components::fresh_id(components))),
            [next, after @ ..] => self.spill_plan(j, x, *next, after),
        }
    }

    // The extension at position j + 1 holds the offset.
    fn extension_plan(self, components: &[Component], j: usize) -> Result<Change, Refusal>
        requires { (length components.now ≤ 16)
            × (j + 1 < length components.now)
            × Fields components.now }
        ensures { let new = fresh_id (ids_of components.now) in
            plan_of result ≡ extension_plan self.entry.mark self.entry.table.now new j (drop j components.now) }
    {
        let c = components[j];
        let x = components[j + 1];
        let grant = granting(j, 2, c, x, x.begin);
        if !c.init {
            return self.choosing(grant);
        }
        if !free_table::any_low(self.table, self.mark, c.objects()) {
            return Ok(grant);
        }
        self.low_plan(components, j, c, x)
    }
}

// The plan of the step for the component at position i. If this component holds the offset, it is the plan of the call
// (`plan_holder`).
pub fn plan_at(
    l: &Layout,
    i: usize,
    mark: u64,
    table: &[TargetRecord],
) -> Result<Option<Change>, Refusal>
    requires { (valid l.now ≡ true) × (i < l.now.count) × (table_ok table.now ≡ true) }
    ensures { result ≡ plan_at mark table.now i (view l.now) }
{
    let t = MarkedTable { table, mark };
    let components = l.components();
    let c = components[i];
    if !c.extension {
        return t.held_plan(i, c);
    }
    let change = t.extension_plan(components, i - 1)?;
    Ok(Some(change))
}
