//! What is printed of a walk, from the words and the texts.

ghost use Rattle.std.specs.Prelude.{◌≡◌, ◌<◌, ◌≤◌, IfOk, length, map, string_bytes};
ghost use Rattle.mta_rehearse_run.specs.Agents.{AreApart};
ghost use Rattle.mta_rehearse_run.specs.Asked.{asked_of};
ghost use Rattle.mta_rehearse_run.specs.Rehearsal.{Shows, IsRehearsed, HasRehearsed};

use crate::asked::{Asked, asked_of};
use crate::checking::check_walk;
use crate::named::{agent_named, names_of};
use crate::network::read_network;
use crate::stop::Stop;
use crate::text::{status_of, walk_text};
use crate::twice::first_twice;
use crate::walk::walk_from;
use mta_ber::{Memory, Octets};
use mta_edge::Source;
use mta_names::OrName;
use mta_tables::Tables;
use std::alloc::Global;

/// The text of a walk, and its status.
#[derive(Drop)]
pub struct Rehearsal {
    pub text: Octets,
    pub status: u8,
}

// What is printed of the walk from an agent: it is the one, as a check of it says.
fn shown(alloc: Global, agents: &[Tables], start: u32, name: &OrName) -> Result<Rehearsal, Memory>
    requires there { start < length agents.now }
    requires few { length agents.now ≤ 64 }
    requires apart { AreApart agents.now }
    ensures { IfOk result (Shows agents.now start name.now) }
{
    let walk = walk_from(alloc, agents, start, name)?;
    if !check_walk(agents, start, name, &walk) {
        unreachable!()
    }
    let text = walk_text(alloc, agents, &walk)?;
    let status = status_of(&walk.end);
    Ok(Rehearsal { text, status })
}

// What is printed of the walk that is asked for, or why there is none.
fn rehearsed(alloc: Global, agents: &[Tables], asked: &Asked) -> Result<Rehearsal, Stop>
    requires { length agents.now ≤ 64 }
    ensures { IsRehearsed agents.now asked.now result }
{
    if let Some(number) = first_twice(agents) {
        return Err(Stop::Twice(number));
    }
    let names = names_of(alloc, agents)?;
    match agent_named(agents, &names, asked.agent.as_slice()) {
        Some(start) => {
            let rehearsal = shown(alloc, agents, start, &asked.name)?;
            Ok(rehearsal)
        }
        None => {
            let agent = asked.agent.copy(alloc)?;
            Err(Stop::NoAgent(agent))
        }
    }
}

/// Reads what the words ask and then the texts to their end: what is printed of the walk, or why there is none.
pub fn rehearse<I: Source>(alloc: Global, words: &[String], conf: &mut I) -> Result<Rehearsal, Stop>
    ensures { HasRehearsed I.model (asked_of (map string_bytes words.now)) conf.old conf.new result }
{
    let asked = match asked_of(alloc, words) {
        Ok(asked) => asked,
        Err(stop) => return Err(stop),
    };
    match read_network(alloc, conf) {
        Ok(agents) => rehearsed(alloc, agents.as_slice(), &asked),
        Err(stop) => Err(stop),
    }
}
