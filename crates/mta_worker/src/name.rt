//! The names by which this agent is known to its peers.

ghost use Rattle.std.specs.Prelude.{◌≡◌, IfOk};
ghost use Rattle.mta_worker.specs.Names.{IsName, is_name, name_shown};

use crate::peer_line::have_lines;
use mta_ber::{Memory, Octets, TextClass, Word, is_of_class};
use mta_records::Reference;
use mta_tables::Tables;
use std::alloc::Global;

// Whether octets are 1 to 32 characters of IA5String.
fn is_name(octets: &[u8]) -> bool
    ensures { result ≡ is_name octets.now }
{
    is_of_class(TextClass::Ia5, octets) && 1 <= octets.len() && octets.len() <= 32
}

/// The own name, which may be shown to a peer.
pub fn own_name(tables: &Tables) -> Result<Word, Memory>
    ensures exact { IfOk result (λ w. w ≡ tables.now.own) }
    ensures shown { IfOk result IsName }
{
    have_lines(tables);
    tables.own().share()
}

/// The name by which a lane was opened, or the own name where its reference has none.
pub fn name_shown(alloc: Global, tables: &Tables, reference: &Reference) -> Result<Word, Memory>
    ensures exact { IfOk result (λ w. w ≡ name_shown tables.now.own reference.now) }
    ensures shown { IfOk result IsName }
{
    let calling = reference.calling();
    if !is_name(calling) {
        return own_name(tables);
    }
    match Word::from_octets(alloc, Octets::from_slice(alloc, calling)?)? {
        Some(name) => Ok(name),
        None => own_name(tables),
    }
}
