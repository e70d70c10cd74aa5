// What a step gives: the refusals that its change draws, or the changed layout, with the table raised.
ghost use Rattle.std.specs.Prelude.{◌≡◌, true, ◌≤◌};
ghost use Rattle.lists.specs.Counting.{elem};
ghost use Rattle.layout.specs.Records.{records_of, records_in, view};
ghost use Rattle.layout.specs.Distinct.{same_object};
ghost use Rattle.layout.specs.Rules.{valid};
ghost use Rattle.refusals.specs.Refusals.{number_in};
ghost use Rattle.mapping.specs.Homes.{has_home};
ghost use Rattle.free_table.specs.Table.{table_ok};
ghost use Rattle.growth_rules.specs.Growing.{meets, step_of, outcome_of};
ghost use Rattle.growth.specs.Answers.{call_of, GrownSays};
ghost use Rattle.growth.specs.Plans.{planned, planned_objects, change_refusal, made_plan, change_plan};
ghost use Rattle.growth.specs.Plans.{IsWithin, PlanFor};

use crate::{Change, Effect, Grown, changing};
use free_table::TargetRecord;
use layout::{Component, Layout, Object};
use refusals::Refusal;

// Does the byte have a home?
fn has_home(l: Layout, offset: u64) -> bool
    requires { valid l ≡ true }
    ensures { result ≡ has_home offset (view l) }
{
    mapping::homes::lookup_valid(l, offset).is_ok()
}

// Accepted: this layout is given back.
fn accepted(l: Layout, offset: u64, changed: bool) -> Grown
    requires { valid l ≡ true }
    ensures { result
        ≡ record { effect = record { home = has_home offset (view l); changed = changed }; layout = l } }
{
    Grown {
        effect: Effect {
            home: has_home(l, offset),
            changed,
        },
        layout: l,
    }
}

// Is the object among the object records of the component?
fn is_in(c: &Component, o: Object) -> bool
    ensures { result ≡ elem same_object o (records_of c.now) }
{
    c.objects().iter().any(|other| o == *other)
}

// Is the object among the object records of the components?
fn is_among(components: &[Component], o: Object) -> bool
    ensures { result ≡ elem same_object o (records_in components.now) }
{
    components.iter().any(|c| is_in(c, o))
}

// Is one of the objects in the layout?
fn meets_layout(l: &Layout, objects: &[Object]) -> bool
    requires { l.now.count ≤ 16 }
    ensures { result ≡ meets objects.now (records_in (view l.now)) }
{
    let components = l.components();
    objects.iter().any(|o| is_among(components, *o))
}

// A layout has at most so many components.
const MOST_COMPONENTS: usize = 16;

// Is the change refused, by `GrownOver16`, `ObjectInLayout` or `Generation`?
fn check(l: &Layout, p: Change) -> Result<(), Refusal>
    requires { (valid l.now ≡ true) × IsWithin p l.now.count }
    ensures { number_in result ≡ change_refusal l.now (planned p (view l.now)) (planned_objects p) }
{
    if MOST_COMPONENTS < changing::planned_count(l.count, p) {
        return Err(Refusal::GrownOver16);
    }
    if meets_layout(l, &p.made.objects[..p.chosen]) {
        return Err(Refusal::ObjectInLayout);
    }
    if l.generation == u32::MAX {
        return Err(Refusal::Generation);
    }
    Ok(())
}

// What a change gives.
fn of_change(
    l: Layout,
    offset: u64,
    mark: u64,
    table: &mut [TargetRecord],
    p: Change,
) -> Result<Grown, Refusal>
    requires { (valid l ≡ true)
        × (table_ok table.old ≡ true)
        × PlanFor l (call_of offset mark table.old) (change_plan p) }
    ensures { let k = call_of offset mark table.old in
        GrownSays l result table.new (outcome_of l k (step_of l k)) }
{
    check(&l, p)?;
    free_table::raise(table, mark, p.chosen);
    Ok(accepted(changing::changed(l, p), offset, true))
}

// What a plan that is no refusal gives.
pub fn of_plan(
    l: Layout,
    offset: u64,
    mark: u64,
    table: &mut [TargetRecord],
    plan: Option<Change>,
) -> Result<Grown, Refusal>
    requires { (valid l ≡ true)
        × (table_ok table.old ≡ true)
        × PlanFor l (call_of offset mark table.old) (made_plan plan) }
    ensures { let k = call_of offset mark table.old in
        GrownSays l result table.new (outcome_of l k (step_of l k)) }
{
    match plan {
        Some(p) => of_change(l, offset, mark, table, p),
        None => Ok(accepted(l, offset, false)),
    }
}

// What the plan of a step gives: a plan that is a refusal refuses the step, and the table stays.
pub fn of_step(
    l: Layout,
    offset: u64,
    mark: u64,
    table: &mut [TargetRecord],
    plan: Result<Option<Change>, Refusal>,
) -> Result<Grown, Refusal>
    requires { (valid l ≡ true)
        × (table_ok table.old ≡ true)
        × PlanFor l (call_of offset mark table.old) plan }
    ensures { let k = call_of offset mark table.old in
        GrownSays l result table.new (outcome_of l k (step_of l k)) }
{
    of_plan(l, offset, mark, table, plan?)
}
