// The free table: what is free on each target and the number of the next object there; which targets are low, which are
// usable, and which are chosen.
#![tactic(auto)]

ghost use Rattle.std.specs.Prelude.{◌≡◌, [], ◌∷◌, true, ◌<◌, ◌≤◌, get_or};
ghost use Rattle.layout.specs.Records.{no_object};
ghost use Rattle.free_table.specs.Table.{rising, table_ok, is_low, any_low, usable};
ghost use Rattle.free_table.specs.Choosing.{chosen, raised_first, choice_of};

use layout::{NO_OBJECT, Object};
use refusals::Refusal;

pub mod raising;
pub mod scanning;

// A target of the free table: its free bytes, and the number of the next object to be made on it. A free table is a
// list of these, targets rising.
#[derive(Clone, Copy, PartialEq, Eq)]
pub struct TargetRecord {
    pub target: u32,
    pub free: u64,
    pub next: u64,
}

impl TargetRecord {
    ghost use Rattle.free_table.specs.Table.{free_below, usable};
    ghost use Rattle.free_table.specs.Choosing.{next_object, raised};

    // Are the free bytes of the target below the mark?
    fn free_below(self, mark: u64) -> bool
        ensures { result ≡ free_below mark self }
    {
        self.free < mark
    }

    // Is the target usable?
    fn is_usable(self, mark: u64) -> bool
        ensures { result ≡ usable mark self }
    {
        !self.free_below(mark) && self.next < u64::MAX
    }

    // The next object on the target.
    fn next_object(self) -> Object
        ensures { result ≡ next_object self }
    {
        Object {
            target: self.target,
            number: self.next,
        }
    }

    // The record once its next object is made.
    fn raised(self) -> TargetRecord
        requires { self.next < 18446744073709551615 }
        ensures { result ≡ raised self }
    {
        TargetRecord {
            next: self.next + 1,
            ..self
        }
    }
}

// Up to 16 values, in the first `count` places.
#[derive(Clone, Copy)]
pub struct Few<T> {
    pub count: usize,
    pub items: [T; 16],
}

impl<T: Copy> Few<T> {
    ghost use Rattle.free_table.specs.Table.{listed};

    // The values.
    pub fn as_slice(&self) -> &[T]
        requires { self.now.count ≤ 16 }
        ensures { result.now ≡ listed self.now }
    {
        &self.items[..self.count]
    }
}

// The objects on chosen targets. The places after them are blank.
pub type Choice = Few<Object>;

impl Few<Object> {
    ghost use Rattle.free_table.specs.Scanning.{choice_after};

    // The choice of at most s objects, with the next object of the record if the record may be chosen and fewer are.
    fn after(self, s: usize, may: bool, r: TargetRecord) -> Choice
        requires { s ≤ 16 }
        ensures { result ≡ choice_after self s may r }
    {
        if self.count < s && may {
            let mut more = self;
            more.items[self.count] = r.next_object();
            more.count += 1;
            return more;
        }
        self
    }
}

// Up to 16 targets.
pub type Targets = Few<u32>;

// A scan of the free table, record by record: what a step of growth asks of it, and what is known after some records.
#[derive(Clone, Copy)]
pub struct Scan {
    // why the call is refused, if it is so far
    pub refusal: Option<Refusal>,
    // how many records are scanned: none of a call that is refused before
    pub records: usize,
    // the low mark, in bytes
    pub mark: u64,
    // the targets of which it is asked whether they are low
    pub asked: Targets,
    // for each of them: is it low, by the records so far?
    pub low: [bool; 16],
    // the targets that are not chosen although they may be usable
    pub left_out: Targets,
    // how many targets are to be chosen
    pub wanted: usize,
    // the objects on the first usable targets so far
    pub choice: Choice,
    // the lowest target that the next record may have
    pub from: u32,
}

// No targets.
pub const NO_TARGETS: Targets = Targets {
    count: 0,
    items: [0; 16],
};

// Nothing is chosen.
pub const NO_CHOICE: Choice = Choice {
    count: 0,
    items: [NO_OBJECT; 16],
};

// What is in the unused places of an array of records.
pub const NO_RECORD: TargetRecord = TargetRecord {
    target: 0,
    free: 0,
    next: 0,
};

// A table has at most so many records.
const MOST_RECORDS: usize = 64;

// Do the targets of the table rise, and are they at most 65,534?
fn targets_rise(table: &[TargetRecord]) -> bool
    ensures { result ≡ rising 0 table.now }
{
    let mut from: u32 = 0;
    for r in table {
        if !scanning::target_ok(from, *r) {
            return false;
        }
        from = r.target + 1;
    }
    true
}

// Is the table good: does refusal 15 not apply to it?
pub fn table_ok(table: &[TargetRecord]) -> bool
    ensures { result ≡ table_ok table.now }
{
    table.len() <= MOST_RECORDS && targets_rise(table)
}

// Is the target low?
pub fn is_low(table: &[TargetRecord], mark: u64, target: u32) -> bool
    ensures { result ≡ is_low mark table.now target }
{
    table
        .iter()
        .find(|r| r.target == target)
        .is_none_or(|r| r.free_below(mark))
}

// Does one of the objects lie on a low target?
pub fn any_low(table: &[TargetRecord], mark: u64, objects: &[Object]) -> bool
    ensures { result ≡ any_low mark table.now objects.now }
{
    objects.iter().any(|o| is_low(table, mark, o.target))
}

// Chooses s targets; fewer if fewer are usable.
pub fn choose(table: &[TargetRecord], mark: u64, s: usize) -> Choice
    requires { (s ≤ 16) × (table_ok table.now ≡ true) }
    ensures { (result ≡ choice_of (chosen (usable mark) s table.now))
        × (result.count ≤ s)
        × ((get_or result.items 0 no_object).target ≤ 65534) }
{
    let mut choice = NO_CHOICE;
    for r in table {
        choice = choice.after(s, r.is_usable(mark), *r);
    }
    choice
}

// Raises the next numbers of the first s usable targets by 1.
pub fn raise(table: &mut [TargetRecord], mark: u64, s: usize)
    ensures { table.new ≡ raised_first (usable mark) s table.old }
{
    let mut left = s;
    for r in table {
        if 0 < left && r.is_usable(mark) {
            *r = r.raised();
            left -= 1;
        }
    }
}
