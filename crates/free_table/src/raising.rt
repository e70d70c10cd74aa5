// The records of the free table after a choice.
ghost use Rattle.std.specs.Prelude.{◌≡◌, map};
ghost use Rattle.lists.specs.Counting.{elem};
ghost use Rattle.layout.specs.Distinct.{same_object};
ghost use Rattle.free_table.specs.Choosing.{next_object};
ghost use Rattle.free_table.specs.ChosenFacts.{raised_in};
ghost use Rattle.free_table.specs.Raising.{Raisable, past_last, records_raised};

use crate::TargetRecord;
use layout::Object;

// Is the next object of the record one of these?
fn is_among(objects: &[Object], r: TargetRecord) -> bool
    ensures { result ≡ elem same_object (next_object r) objects.now }
{
    let next = r.next_object();
    objects.iter().any(|o| next == *o)
}

// Is the target above that of the last of the objects?
fn is_past(objects: &[Object], target: u32) -> bool
    ensures { result ≡ past_last objects.now target }
{
    match objects.last() {
        Some(last) => last.target < target,
        None => false,
    }
}

// The record, its next number raised if its next object is one of the chosen ones. The last of these has the highest
// target, so a record above it is compared with none of the others.
pub fn raised_in(objects: &[Object], r: TargetRecord) -> TargetRecord
    requires { Raisable objects.now }
    ensures { result ≡ raised_in objects.now r }
{
    if is_past(objects, r.target) || !is_among(objects, r) {
        return r;
    }
    r.raised()
}

// How many of so many records are looked at to raise n of them: none if n is 0.
pub fn records_raised(records: usize, n: usize) -> usize
    ensures { result ≡ records_raised records n }
{
    if n == 0 { 0 } else { records }
}

// Raises the next numbers of the records whose next objects are among these. If there are no objects, no record is
// stored.
pub fn raise(table: &mut [TargetRecord], objects: &[Object])
    requires { Raisable objects.now }
    ensures { table.new ≡ map (raised_in objects.now) table.old }
{
    let records = records_raised(table.len(), objects.len());
    for r in &mut table[..records] {
        *r = raised_in(objects, *r);
    }
}
