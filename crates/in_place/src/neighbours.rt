// The neighbour rules (7), asked of components at places.
ghost use Rattle.std.specs.Prelude.{◌≡◌, ◌+◌, ◌≤◌, length};
ghost use Rattle.refusals.specs.Refusals.{number_in};
ghost use Rattle.layout.specs.Records.{neighbour_of, neighbours_of};
ghost use Rattle.page.specs.Content.{component_at};
ghost use Rattle.in_place.specs.Places.{components_at, Within};
ghost use Rattle.in_place.specs.Joining.{none_before, joins, last_of, new_rule_broken};

use bytes_le::{LittleEndian, flags};
use layout::{Neighbour, neighbours};
use refusals::Refusal;

const NONE_BEFORE: Neighbour = Neighbour {
    init: true,
    extension: true,
    begin: 0,
    end: 0,
};

// The component at the place as the neighbour rules see it.
pub fn neighbour_at(s: &[u8], at: usize) -> Neighbour
    requires { at + 40 ≤ length s.now }
    ensures { result ≡ neighbour_of (component_at s.now at) }
{
    let word = u16::read_at(s, at + 2);
    Neighbour {
        init: flags::is_set(word, 0),
        extension: flags::is_set(word, 1),
        begin: u64::read_at(s, at + 16),
        end: u64::read_at(s, at + 24),
    }
}

// Do the neighbour rules hold between a component and the one directly before it?
#[tactic(auto, unfolding(crate::specs::Joining::joins))]
fn joins(before: Neighbour, c: Neighbour) -> bool
    ensures { result ≡ joins before c }
{
    (c.begin == before.end)
        & neighbours::follows_ok(!before.extension, c.extension)
        & neighbours::empty_ok(before, c.extension)
}

// The last of the components at the places, or what is taken as the one before the first.
fn last_at(s: &[u8], places: &[usize]) -> Neighbour
    requires { Within s.now (length places.now) places.now }
    ensures { result ≡ last_of none_before (neighbours_of (components_at s.now places.now)) }
{
    places.last().map_or(NONE_BEFORE, |at| neighbour_at(s, *at))
}

// Do the components at new places keep the rules of fields and of neighbours, asked in this order, after those at the
// old places? `more` says that pages are outstanding. One pass asks both rules.
pub fn check_new(s: &[u8], old: &[usize], new: &[usize], more: bool) -> Result<(), Refusal>
    requires { Within s.now (length old.now) old.now × Within s.now (length new.now) new.now }
    ensures { let b = s.now in
        number_in result ≡ new_rule_broken more (components_at b old.now) (components_at b new.now) }
{
    let mut sound = true;
    let mut joined = true;
    let mut last = last_at(s, old);
    for at in new {
        let c = neighbour_at(s, *at);
        sound &= crate::fields::fields_ok(s, *at);
        joined &= joins(last, c);
        last = c;
    }
    if !sound {
        return Err(Refusal::Fields);
    }
    let ends = more | !last.is_empty();
    if joined & ends {
        return Ok(());
    }
    Err(Refusal::Neighbours)
}
