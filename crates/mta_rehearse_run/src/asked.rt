//! The words of the command line.

ghost use Rattle.std.specs.Prelude.{◌≡◌, map, string_bytes};
ghost use Rattle.mta_rehearse_run.specs.Asked.{is_undashed, is_agent, IsReadAs, asked_in, asked_of};

use crate::stop::Stop;
use mta_ber::Octets;
use mta_name_text::{FromText, NameFault};
use mta_names::OrName;
use mta_tables::is_word;
use std::alloc::Global;

/// What is asked: from which agent a walk goes, and of which name.
#[derive(Drop)]
pub struct Asked {
    pub agent: Octets,
    pub name: OrName,
}

fn is_undashed(word: &[u8]) -> bool
    ensures { result ≡ is_undashed word.now }
{
    match word {
        [] => true,
        [first, ..] => *first != b'-',
    }
}

fn is_agent(word: &[u8]) -> bool
    ensures { result ≡ is_agent word.now }
{
    is_word(word) && is_undashed(word)
}

fn asked_in(alloc: Global, agent: &[u8], name: &[u8]) -> Result<Asked, Stop>
    ensures { IsReadAs (asked_in agent.now name.now) result }
{
    if !is_agent(agent) {
        return Err(Stop::Usage);
    }
    match OrName::from_text(alloc, name) {
        Ok(name) => {
            let agent = Octets::from_slice(alloc, agent)?;
            Ok(Asked { agent, name })
        }
        Err(NameFault::NameText { .. }) => Err(Stop::Usage),
        Err(NameFault::Memory) => Err(Stop::Memory),
    }
}

/// What the words ask: an agent's name, which is a word that does not begin with `-`, and the text form of an O/R name.
pub fn asked_of(alloc: Global, words: &[String]) -> Result<Asked, Stop>
    ensures { IsReadAs (asked_of (map string_bytes words.now)) result }
{
    match words {
        [agent, name] => asked_in(alloc, agent.as_bytes(), name.as_bytes()),
        _ => Err(Stop::Usage),
    }
}
