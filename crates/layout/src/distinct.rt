// Distinctness (refusal 8): ids, and object records anywhere in the layout. The object records are gathered once into
// a dense row, which is scanned. A second row has a short key of each record: a record whose key equals none before it
// is asked of none.
ghost use Rattle.std.specs.Prelude.{◌≡◌, true, cond, ◌+◌, ◌*◌, ◌≤◌, ◌<◌, eqb, min, length, take, get_or};
ghost use Rattle.std.proofs.lemmas.List.Edits.{sets};
ghost use Rattle.std.proofs.Math.Seq.{slice};
ghost use Rattle.lists.specs.Tests.{every, first_failed, found};
ghost use Rattle.lists.specs.Counting.{fresh, elem};
ghost use Rattle.layout.specs.Records.{no_component, records_of, records_in};
ghost use Rattle.layout.specs.Rows.{key_of, keys_of};
ghost use Rattle.layout.specs.Distinct.{same_object, object_tests};
ghost use Rattle.layout.specs.Known.{Passed};

use crate::components::Components;
use crate::{NO_OBJECT, Object};

// The position of the first id that equals one before it. The tests of the first `from` are known to pass.
pub fn id_fault(ids: &[u16], from: usize) -> Option<usize>
    requires { Passed from (length ids.now) (fresh eqb ids.now) }
    ensures { result ≡ found (first_failed (fresh eqb ids.now)) (length ids.now) }
{
    for i in from..ids.len() {
        if ids[..i].contains(&ids[i]) {
            return Some(i);
        }
    }
    None
}

// The key of an object record.
#[tactic(auto, unfolding(crate::specs::Rows::key_of))]
fn key_of(o: Object) -> u16
    ensures { result ≡ key_of o }
{
    ((o.number % 65536 + 257 * (u64::from(o.target) % 65536)) % 65536) as u16
}

// Stores the keys of object records in a row.
fn put_keys(objects: &[Object], keys: &mut [u16])
    requires { length keys.old ≡ length objects.now }
    ensures { keys.new ≡ keys_of objects.now }
{
    for (i, o) in objects.iter().enumerate() {
        keys[i] = key_of(*o);
    }
}

// The place from which on a record with this key is asked of those before it: the place after them if its key equals
// none of theirs, so that none is asked, else 0. The loop has one way out, so that it is compiled to few instructions
// for many places.
fn row_start(before: &[u16], key: u16) -> usize
    ensures { result ≡ cond (elem eqb key before.now) 0 (length before.now) }
{
    let mut alike = false;
    for earlier in before {
        alike |= key == *earlier;
    }
    if alike { 0 } else { before.len() }
}

// The position of the first object record that equals one before it. The tests of the first `from` are known to pass,
// and the keys of all are known.
fn repeat_by_keys(objects: &[Object], keys: &[u16], from: usize) -> Option<usize>
    requires { let os = objects.now in
        (keys.now ≡ keys_of os) × Passed from (length os) (fresh same_object os) }
    ensures { let os = objects.now in
        result ≡ found (first_failed (fresh same_object os)) (length os) }
{
    'scan: {
        for later in from..objects.len() {
            for earlier in row_start(&keys[..later], keys[later])..later {
                if objects[later] == objects[earlier] {
                    break 'scan Some(later);
                }
            }
        }
        None
    }
}

// The same, if the keys are not known yet: they are stored in the first places of a row that has room for them.
pub fn object_repeat(objects: &[Object], keys: &mut [u16], from: usize) -> Option<usize>
    requires { let os = objects.now in
        (length os ≤ length keys.old) × Passed from (length os) (fresh same_object os) }
    ensures { let os = objects.now in
        (result ≡ found (first_failed (fresh same_object os)) (length os))
        × (keys.new ≡ sets keys.old 0 (keys_of os)) }
{
    let known = &mut keys[..objects.len()];
    put_keys(objects, known);
    repeat_by_keys(objects, known, from)
}

// Copies the object records of the component at a position to the row, from place `at` on; gives the place after them.
// The row has room for as many as there are, or for 16.
pub fn put_records<C: Components>(
    components: &C,
    i: usize,
    at: usize,
    objects: &mut [Object],
) -> usize
    requires place { i < length (C.list components.now) }
    requires room { at + min (length (records_of (get_or (C.list components.now) i no_component))) 16
        ≤ length objects.old }
    ensures { let os = records_of (get_or (C.list components.now) i no_component) in
        (result ≡ at + length os) × (result ≤ at + 16) × (objects.new ≡ sets objects.old at os) }
{
    let n = components.records(i);
    for j in 0..n {
        objects[at + j] = components.record(i, j);
    }
    at + n
}

// Copies the object records of the components to the row, from its first place on; gives the place after them. The row
// has room for as many as there are, or for 16 of each component.
pub fn put_all<C: Components>(components: &C, objects: &mut [Object]) -> usize
    requires { let cs = C.list components.now in
        min (length (records_in cs)) (16 * length cs) ≤ length objects.old }
    ensures { let os = records_in (C.list components.now) in
        (result ≡ length os)
        × (result ≤ 16 * length (C.list components.now))
        × (objects.new ≡ sets objects.old 0 os) }
{
    let mut p = 0;
    for i in 0..components.count() {
        p = put_records(components, i, p, objects);
    }
    p
}

// How many object records the first `to` components have.
fn record_total<C: Components>(components: &C, to: usize) -> usize
    requires { (to ≤ length (C.list components.now)) × (to ≤ 16) }
    ensures { (result ≡ length (records_in (take to (C.list components.now))))
        × (result ≤ 16 * to) }
{
    let mut total = 0;
    for i in 0..to {
        total += components.records(i);
    }
    total
}

// Do the object records of the components differ, which are at most N? Those of the first `from` components are known
// to.
fn differ<const N: usize, C: Components>(components: &C, from: usize) -> bool
    requires { let cs = C.list components.now in
        (N ≤ 256)
        × (from ≤ length cs)
        × (length cs ≤ 16)
        × (length (records_in cs) ≤ N)
        × (every (take (length (records_in (take from cs))) (object_tests cs)) ≡ true) }
    ensures { result ≡ every (object_tests (C.list components.now)) }
{
    let mut objects = [NO_OBJECT; N];
    let mut keys = [0u16; N];
    let all = put_all(components, &mut objects);
    let known = record_total(components, from);
    object_repeat(&objects[..all], &mut keys, known).is_none()
}

// Do all object records of the components differ? Those of the first `from` components are known to. The row is cleared
// at each call, so few records get a short one, and fewer than two differ.
pub fn objects_differ<C: Components>(components: &C, from: usize) -> bool
    requires { let cs = C.list components.now in
        (from ≤ length cs)
        × (length cs ≤ 16)
        × (every (take (length (records_in (take from cs))) (object_tests cs)) ≡ true) }
    ensures { result ≡ every (object_tests (C.list components.now)) }
{
    match record_total(components, components.count()) {
        0..=1 => true,
        2..=32 => differ::<32, C>(components, from),
        _ => differ::<256, C>(components, from),
    }
}
