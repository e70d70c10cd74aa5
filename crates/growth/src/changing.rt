// The layout that a change makes.
ghost use Rattle.std.specs.Prelude.{◌≡◌, ◌+◌, ◌-◌, ◌<◌, ◌≤◌, drop};
ghost use Rattle.std.proofs.lemmas.List.Edits.{sets};
ghost use Rattle.layout.specs.Records.{view, packed};
ghost use Rattle.growth.specs.Plans.{planned, replacement, replacement_count};

use crate::Change;
use layout::{Component, Layout};

// The components of the layout, with what the change puts in place of its `old` ones, in the first places.
fn spliced(l: Layout, p: Change) -> [Component; 16]
    requires { (l.count ≤ 16)
        × (p.at + p.old ≤ l.count)
        × (l.count + replacement_count p ≤ 16 + p.old) }
    ensures { result ≡ sets l.components p.at (replacement p (drop (p.at + p.old) (view l))) }
{
    let mut next = l.components;
    next[p.at] = p.made;
    let mut after = p.at + 1;
    if let Some(left) = p.left {
        next[after] = left;
        after += 1;
    }
    let others = &l.components()[p.at + p.old..];
    next[after..after + others.len()].copy_from_slice(others);
    next
}

// The number of components that the change makes of n.
pub fn planned_count(n: usize, p: Change) -> usize
    requires { (n ≤ 16) × (p.at + p.old ≤ n) }
    ensures { result ≡ n - p.old + replacement_count p }
{
    n - p.old + 1 + usize::from(p.left.is_some())
}

// The layout with what the change puts in place of its `old` components. Its generation is one higher.
pub fn changed(l: Layout, p: Change) -> Layout
    requires { (l.count ≤ 16)
        × (p.at + p.old ≤ l.count)
        × (l.count + replacement_count p ≤ 16 + p.old)
        × (l.generation < 4294967295) }
    ensures { result ≡ packed (l.generation + 1) (planned p (view l)) }
{
    let next = spliced(l, p);
    layout::pack(l.generation + 1, &next[..planned_count(l.count, p)])
}
