// The neighbour rules (refusal 7), in their four parts, asked of a list. Each part gives the position of its first
// fault; the tests of the first `from` are known to pass and are not asked again.
ghost use Rattle.std.specs.Prelude.{◌≡◌, false, ◌-◌, ◌≤◌, length};
ghost use Rattle.lists.specs.Tests.{first_failed, found, after};
ghost use Rattle.layout.specs.Neighbours.{end_of, may_follow, begin_tests, follow_tests, empty_tests, last_tests};
ghost use Rattle.layout.specs.Neighbours.{may_stand, is_empty, empty_before, neighbours_hold};
ghost use Rattle.layout.specs.Known.{Passed, Joined};

use crate::Neighbour;

// Where the component after these is to begin: where the last of them ends, 0 if there is none.
pub fn end_before(before: &[Neighbour]) -> u64
    ensures { result ≡ after end_of 0 before.now }
{
    before.last().map_or(0, |c| c.end)
}

// May an extension follow these: is there one, and is the last of them not an extension?
pub fn may_before(before: &[Neighbour]) -> bool
    ensures { result ≡ after may_follow false before.now }
{
    before.last().is_some_and(|c| !c.extension)
}

// The first component that does not begin where the one before it ends, the first of all at 0.
pub fn begin_fault(list: &[Neighbour], from: usize) -> Option<usize>
    requires { Passed from (length list.now) (begin_tests list.now) }
    ensures { result ≡ found (first_failed (begin_tests list.now)) (length list.now) }
{
    let mut at = end_before(&list[..from]);
    let rest = &list[from..];
    for (i, c) in rest.iter().enumerate() {
        if c.begin != at {
            return Some(from + i);
        }
        at = c.end;
    }
    None
}

// The first extension that does not directly follow a component that is not one.
pub fn follow_fault(list: &[Neighbour], from: usize) -> Option<usize>
    requires { Passed from (length list.now) (follow_tests list.now) }
    ensures { result ≡ found (first_failed (follow_tests list.now)) (length list.now) }
{
    let mut may = may_before(&list[..from]);
    let rest = &list[from..];
    for (i, c) in rest.iter().enumerate() {
        if !follows_ok(may, c.extension) {
            return Some(from + i);
        }
        may = !c.extension;
    }
    None
}

// May the component be here: is it no extension, or may one follow?
pub fn follows_ok(may: bool, extension: bool) -> bool
    ensures { result ≡ may_stand may extension }
{
    !extension | may
}

// Is the component init, or empty exactly if an extension follows?
pub fn empty_ok(c: Neighbour, extension_follows: bool) -> bool
    ensures { result ≡ empty_before c.init c.begin c.end extension_follows }
{
    c.init | (c.is_empty() == extension_follows)
}

// The first component, but for the last, that is not init and is empty if no extension follows, or not empty if
// one does.
pub fn empty_fault(list: &[Neighbour], from: usize) -> Option<usize>
    requires { Passed from (length list.now) (empty_tests list.now) }
    ensures { result ≡ found (first_failed (empty_tests list.now)) (length list.now) }
{
    let rest = &list[from..];
    let i = rest
        .iter()
        .zip(rest.iter().skip(1))
        .position(|(c, next)| !empty_ok(*c, next.extension))?;
    Some(from + i)
}

// The last component if it is empty with no pages outstanding.
pub fn last_fault(list: &[Neighbour], more: bool) -> Option<usize>
    ensures { result ≡ found (first_failed (last_tests more list.now)) (length list.now) }
{
    let last = list.last()?;
    if more || !last.is_empty() {
        return None;
    }
    Some(list.len() - 1)
}

// Do the neighbour rules hold, with pages outstanding or not?
pub fn neighbours_hold(list: &[Neighbour], more: bool, from: usize) -> bool
    requires { Joined from (length list.now) list.now }
    ensures { result ≡ neighbours_hold more list.now }
{
    begin_fault(list, from).is_none()
        && follow_fault(list, from).is_none()
        && empty_fault(list, from.saturating_sub(1)).is_none()
        && last_fault(list, more).is_none()
}
