//! The tables of both agents.

ghost use Rattle.std.specs.Prelude.{◌≡◌, ◌↔◌, IfOk, IfSome, IsTrue, None, Ok};
ghost use Rattle.mta_tables.specs.Tables.{TablesValue, tables_of as tables_in};
ghost use Rattle.mta_drill_laws.specs.Tables.{east, first_text, mailbox, second_text};

use mta_ber::{Memory, Octets, Word};
use mta_tables::{Tables, TablesFault};
use std::alloc::Global;

// The tables of the agent that sends: C=GB;A=GOLD, which is GOLD-1 to its peers, and sends to EAST what is for C=GB.
const FIRST: &[u8] = b"domain C=GB;A=GOLD\n\
name GOLD-1\n\
peer EAST from-gold from-east monologue 1 2\n\
route C=GB peer EAST\n";

// The tables of the agent that receives: C=GB;A=EAST, with the mailbox watt.
const SECOND: &[u8] = b"domain C=GB;A=EAST\n\
name EAST\n\
peer GOLD-1 from-east from-gold monologue 1 2\n\
mailbox watt C=GB;A=GOLD;S=WATT\n";

// The name of the second agent in the tables of the first.
const PEER_NAME: &[u8] = b"EAST";

// The mailbox at the second agent.
const MAILBOX: &[u8] = b"watt";

/// The tables of the agent that sends.
#[tactic(auto, unfolding(mta_drill_laws::specs::Tables::first_text))]
pub(crate) fn first_text() -> &'static [u8]
    ensures { result.now ≡ first_text }
{
    FIRST
}

/// The tables of the agent that receives.
#[tactic(auto, unfolding(mta_drill_laws::specs::Tables::second_text))]
pub(crate) fn second_text() -> &'static [u8]
    ensures { result.now ≡ second_text }
{
    SECOND
}

/// The name by which the first agent calls the second.
#[tactic(auto, unfolding(mta_drill_laws::specs::Tables::east))]
pub(crate) fn peer(alloc: Global) -> Result<Option<Word>, Memory>
    ensures exact { IfOk result (λ o. IfSome o (λ w. w ≡ east)) }
    ensures some { IfOk result (λ o. o ≡ None → ⊥) }
{
    Word::from_octets(alloc, Octets::from_slice(alloc, PEER_NAME)?)
}

/// Whether the word is that of the mailbox at the second agent.
#[tactic(auto, unfolding(mta_drill_laws::specs::Tables::mailbox))]
pub(crate) fn is_mailbox(word: &[u8]) -> bool
    ensures { IsTrue result ↔ (word.now ≡ mailbox) }
{
    word == MAILBOX
}

/// The tables of a text; none where it is none.
pub(crate) fn tables_of(alloc: Global, text: &[u8]) -> Result<Option<Tables>, Memory>
    ensures text { IfOk result (λ o. IfSome o (λ t. t.text ≡ text.now)) }
    ensures none { (t : TablesValue) → tables_in text.now ≡ Ok t → result ≡ Ok None → ⊥ }
{
    match Tables::read(alloc, text) {
        Ok(tables) => Ok(Some(tables)),
        Err(TablesFault::Memory) => Err(Memory),
        Err(TablesFault::BadLine { .. }) => Ok(None),
    }
}
