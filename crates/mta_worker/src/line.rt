//! The line of a peer in the tables recorded last.

ghost use Rattle.std.specs.Prelude.{◌≡◌, IfOk, IfSome};
ghost use Rattle.mta_worker.specs.PeerLines.{IsLine};
ghost use Rattle.mta_worker.specs.Lines.{line_now};

use crate::peer_line::line_in;
use mta_ber::Memory;
use mta_edge::{Clock, Disk};
use mta_session::Peer;
use mta_spool::Spool;
use std::alloc::Global;

/// The line of a name in the tables recorded last; none where there is none.
pub fn line_of<D: Disk + Drop, C: Clock + Drop>(
    alloc: Global,
    spool: &Spool<D, C>,
    name: &[u8],
) -> Result<Option<Peer>, Memory>
    ensures exact { IfOk result (λ p. p ≡ line_now spool.now.current.machine name.now) }
    ensures fits { IfOk result (λ p. IfSome p IsLine) }
{
    match spool.tables() {
        Some(tables) => line_in(alloc, tables, name),
        None => Ok(None),
    }
}
