//! Agents that cannot be told apart.

ghost use Rattle.std.specs.Prelude.{◌≤◌, ◌↔◌, IsTrue, MatchOption, length};
ghost use Rattle.mta_rehearse_run.specs.Agents.{AreApart, AreSameAt, IsFirstTwice, IsSameAgent, IsTwiceAt};

use crate::named::is_text;
use mta_tables::Tables;

fn is_same_agent(first: &Tables, second: &Tables) -> bool
    ensures { IsTrue result ↔ IsSameAgent first.now second.now }
{
    is_text(first.own().as_slice(), second.own().as_slice()) || first.domain().same(second.domain())
}

fn is_same_at(agents: &[Tables], i: usize, j: usize) -> bool
    ensures { IsTrue result ↔ AreSameAt agents.now i j }
{
    match agents.get(i) {
        None => false,
        Some(first) => match agents.get(j) {
            None => false,
            Some(second) => is_same_agent(first, second),
        },
    }
}

// Whether an earlier agent has the name or the domain of the one at this place.
fn is_twice_at(agents: &[Tables], place: usize) -> bool
    ensures { IsTrue result ↔ IsTwiceAt agents.now place }
{
    for earlier in 0..place {
        if is_same_at(agents, earlier, place) {
            return true;
        }
    }
    false
}

/// The number, from 1, of the first agent of which an earlier one has the name or the domain.
pub fn first_twice(agents: &[Tables]) -> Option<u32>
    requires { length agents.now ≤ 64 }
    ensures { MatchOption result (AreApart agents.now) (IsFirstTwice agents.now) }
{
    for place in 0..agents.len() {
        if is_twice_at(agents, place) {
            return Some(place as u32 + 1);
        }
    }
    None
}
