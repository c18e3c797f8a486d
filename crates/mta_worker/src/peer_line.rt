//! The line of a peer.

ghost use Rattle.std.specs.Prelude.{◌≡◌, IfOk, IfSome};
ghost use Rattle.mta_worker.specs.PeerLines.{HaveLines, IsLine, line_in, line_of};

use crate::plan_laws::tables_of_a_text_have_lines;
use mta_ber::Memory;
use mta_session::Peer;
use mta_tables::{Peer as Entry, Tables};
use std::alloc::Global;

/// What the lines of tables say of names, passwords and values is in its ranges.
pub fn have_lines(tables: &Tables)
    ensures { HaveLines tables.now }
{
    tables_of_a_text_have_lines();
    let _text = tables.text();
}

// A copy of a line.
fn copy_of(alloc: Global, entry: &Entry) -> Result<Peer, Memory>
    ensures { IfOk result (λ p. p ≡ line_of entry.now) }
{
    Ok(Peer {
        name: entry.name.share()?,
        send_password: entry.send_password.copy(alloc)?,
        expected_password: entry.expected_password.copy(alloc)?,
        twa: entry.twa,
        checkpoint: entry.checkpoint,
        window: entry.window,
    })
}

// The line of a name, where there is one.
fn found_in(alloc: Global, tables: &Tables, name: &[u8]) -> Result<Option<Peer>, Memory>
    ensures { IfOk result (λ p. p ≡ line_in tables.now name.now) }
{
    let Some(place) = tables.peer(name) else {
        return Ok(None);
    };
    match tables.peers().get(place as usize) {
        Some(entry) => Ok(Some(copy_of(alloc, entry)?)),
        None => Ok(None),
    }
}

/// The line of the peer of this name; none where there is none.
pub fn line_in(alloc: Global, tables: &Tables, name: &[u8]) -> Result<Option<Peer>, Memory>
    ensures exact { IfOk result (λ p. p ≡ line_in tables.now name.now) }

    // The passwords may be shown to the peer, and the values proposed to it.
    ensures fits { IfOk result (λ p. IfSome p IsLine) }
{
    have_lines(tables);
    found_in(alloc, tables, name)
}
