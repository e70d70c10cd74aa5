// The free table scanned record by record: what a step of growth asks of it, and what is known after some of its
// records.
ghost use Rattle.std.specs.Prelude.{◌≡◌, ◌≤◌, eqb, length, take};
ghost use Rattle.lists.specs.Counting.{elem};
ghost use Rattle.layout.specs.Records.{records_of};
ghost use Rattle.layout.specs.Rows.{targets_of};
ghost use Rattle.free_table.specs.Table.{target_ok};
ghost use Rattle.free_table.specs.Scanning.{pack_targets, new_scan, refused_scan, eligible, lows_after};
ghost use Rattle.free_table.specs.Scanning.{told, seen, scanned, Fit, any_set};

use crate::{NO_CHOICE, NO_TARGETS, Scan, TargetRecord, Targets};
use layout::Component;
use refusals::Refusal;

// The targets of the object records of a component.
pub fn targets_of(c: Component) -> Targets
    ensures { result ≡ pack_targets (targets_of (records_of c)) }
{
    let objects = c.objects();
    let mut targets = [0u32; 16];
    for (i, o) in objects.iter().enumerate() {
        targets[i] = o.target;
    }
    Targets {
        count: objects.len(),
        items: targets,
    }
}

// The scan of so many records before the first of them. It asks which of `asked` are low, and for the first `wanted`
// usable targets that are not in `left_out`.
pub fn new_scan(records: usize, mark: u64, asked: Targets, left_out: Targets, wanted: usize) -> Scan
    ensures { result ≡ new_scan records mark asked left_out wanted }
{
    Scan {
        refusal: None,
        records,
        mark,
        asked,
        low: [true; 16],
        left_out,
        wanted,
        choice: NO_CHOICE,
        from: 0,
    }
}

// The scan of no records, of a call that is refused already.
pub fn refused_scan(refusal: Refusal) -> Scan
    ensures { result ≡ refused_scan refusal }
{
    Scan {
        refusal: Some(refusal),
        ..new_scan(0, 0, NO_TARGETS, NO_TARGETS, 0)
    }
}

// The highest target.
const LAST_TARGET: u32 = 65534;

// May this target be here: is it at least `from` and at most 65,534?
pub fn target_ok(from: u32, r: TargetRecord) -> bool
    ensures { result ≡ target_ok from r }
{
    from <= r.target && r.target <= LAST_TARGET
}

// Is the target one of these?
fn is_listed(targets: &[u32], target: u32) -> bool
    ensures { result ≡ elem eqb target targets.now }
{
    targets.contains(&target)
}

// Is the record's target usable, and none of those that are left out?
fn is_eligible(mark: u64, left_out: &[u32], r: TargetRecord) -> bool
    ensures { result ≡ eligible mark left_out.now r }
{
    r.is_usable(mark) && !is_listed(left_out, r.target)
}

// Sets the flags of those targets that are `of`, the target of a record; `below` says that its free bytes are below the
// mark.
fn tell_lows(low: &mut [bool], targets: &[u32], of: u32, below: bool)
    requires { length targets.now ≤ length low.old }
    ensures { low.new ≡ lows_after of below targets.now low.old }
{
    for (i, target) in targets.iter().enumerate() {
        if of == *target {
            low[i] = below;
        }
    }
}

// The scan after a record whose target may be where it is.
fn tell(s: Scan, r: TargetRecord) -> Scan
    requires { Fit s × (r.target ≤ 65534) }
    ensures { result ≡ told s r }
{
    let mut low = s.low;
    tell_lows(&mut low, s.asked.as_slice(), r.target, r.free_below(s.mark));
    let may = is_eligible(s.mark, s.left_out.as_slice(), r);
    Scan {
        low,
        choice: s.choice.after(s.wanted, may, r),
        from: r.target + 1,
        ..s
    }
}

// The scan after one record more: refused by `Table` if the record's target may not be where it is. A scan that is
// refused stays.
pub fn see(s: Scan, r: TargetRecord) -> Scan
    requires { Fit s }
    ensures { result ≡ seen s r }
{
    if s.refusal.is_some() {
        return s;
    }
    if !target_ok(s.from, r) {
        return Scan {
            refusal: Some(Refusal::Table),
            ..s
        };
    }
    tell(s, r)
}

// Scans as many of the records as the scan says.
pub fn scan(table: &[TargetRecord], asked: Scan) -> Scan
    requires { Fit asked × (asked.records ≤ length table.now) }
    ensures { result ≡ scanned asked (take asked.records table.now) }
{
    let mut s = asked;
    for r in &table[..asked.records] {
        s = see(s, *r);
    }
    s
}

// Is one of the flags set?
pub fn any_set(flags: &[bool]) -> bool
    ensures { result ≡ any_set flags.now }
{
    flags.iter().any(|flag| *flag)
}
