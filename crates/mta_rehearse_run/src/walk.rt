//! The walk of a name from agent to agent.

ghost use Rattle.std.specs.Prelude.{◌≡◌, ◌<◌, ◌≤◌, ◌^◌, IfOk, length};
ghost use Rattle.mta_rehearse_run.specs.Walks.{Closes, IsWalk};

use crate::named::names_of;
use crate::turn::{Turn, turn_of};
use crate::walked::{Walk, WalkEnd, is_walked};
use mta_ber::Memory;
use mta_names::{OrName, Row};
use mta_tables::Tables;
use std::alloc::Global;

// What becomes of a name behind these agents: it goes round where the next one is one of them.
fn closed(walked: &[u32], turn: Turn) -> Turn
    ensures { Closes walked.now turn result }
{
    match turn {
        Turn::Over(end) => Turn::Over(end),
        Turn::On(next) => {
            if is_walked(walked, next) {
                Turn::Over(WalkEnd::Loop(next))
            } else {
                Turn::On(next)
            }
        }
    }
}

/// The walk of a name from the agent at the place `start`: each agent is told by its tables. At each one the name goes
/// where `Tables::route` sends it, and on to the agent that has the peer's name, until it is over or goes round.
pub fn walk_from(
    alloc: Global,
    agents: &[Tables],
    start: u32,
    name: &OrName,
) -> Result<Walk, Memory>
    requires there { start < length agents.now }
    requires few { length agents.now ≤ 2 ^ 32 }
    ensures { IfOk result (IsWalk agents.now start name.now) }
{
    let names = names_of(alloc, agents)?;
    let mut walked = Row::new(alloc);
    walked.push(start)?;
    let mut last = start;
    'walking: loop {
        let turn = turn_of(agents, &names, name, last)?;
        match closed(walked.as_slice(), turn) {
            Turn::Over(end) => {
                return Ok(Walk {
                    agents: walked,
                    end,
                });
            }
            Turn::On(next) => {
                walked.push(next)?;
                last = next;
            }
        }
    }
}
