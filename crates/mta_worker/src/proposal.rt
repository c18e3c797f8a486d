//! What stands before an initiator's session: the lane that is opened, bound or closed, and what is proposed on it.

ghost use Rattle.std.specs.Prelude.{◌≡◌, ◌≤◌, IfOk, IfSome, None};
ghost use Rattle.std.specs.Option.{option_copied};
ghost use Rattle.mta_ber.specs.Times.{last_moment};
ghost use Rattle.mta_worker.specs.PeerLines.{IsLine};
ghost use Rattle.mta_worker.specs.Proposals.{HasFirst, HasNone, IsNext};
ghost use Rattle.mta_worker.specs.Nexts.{IsProposed, next_of_lane, next_of_none};

use crate::peer_line::line_in;
use crate::plan::{plan_to_open, plan_to_recover};
use mta_ber::{Memory, Word};
use mta_edge::{Clock, Disk};
use mta_lanes::Lane;
use mta_records::LaneRole;
use mta_session::{InitiatorPlan, Peer};
use mta_spool::Spool;
use mta_tables::Tables;
use std::alloc::Global;

/// What comes next with a peer that this agent calls.
#[derive(Drop)]
pub enum Next {
    /// No tables are recorded, or those recorded last do not name the peer.
    NoPeer,
    /// A lane that is open was never agreed: it is closed.
    Close { lane: u32, generation: u64 },
    /// A lane that is open is bound.
    Bind { lane: u32, plan: InitiatorPlan },
    /// A lane is opened.
    Open { plan: InitiatorPlan },
    /// There is no number left for a lane.
    NoNumber { last: u32 },
}

// A lane that is open.
fn next_of_lane(alloc: Global, tables: &Tables, line: Peer, lane: &Lane) -> Result<Next, Memory>
    ensures exact { IfOk result (λ n. n ≡ next_of_lane tables.now line lane.now) }
    ensures fits { IsLine line → IfOk result IsProposed }
{
    if !lane.values().agreed {
        return Ok(Next::Close {
            lane: lane.number(),
            generation: lane.generation(),
        });
    }
    Ok(Next::Bind {
        lane: lane.number(),
        plan: plan_to_recover(alloc, tables, line, lane.reference())?,
    })
}

// No lane is open, and the last one had this number.
fn next_of_none(
    alloc: Global,
    tables: &Tables,
    line: Peer,
    moment: u64,
    last: u32,
) -> Result<Next, Memory>
    requires { moment ≤ last_moment }
    ensures exact { IfOk result (λ n. n ≡ next_of_none tables.now line moment last) }
    ensures fits { IsLine line → IfOk result IsProposed }
{
    match last.checked_add(1) {
        Some(number) => Ok(Next::Open {
            plan: plan_to_open(alloc, tables, line, moment, number)?,
        }),
        None => Ok(Next::NoNumber { last }),
    }
}

// The open lane with a peer that this agent opened; none where none is.
fn open_lane<'a, D: Disk + Drop, C: Clock + Drop>(
    spool: &'a Spool<D, C>,
    peer: &Word,
) -> Option<&'a Lane>
    ensures first { IfSome (option_copied result) (HasFirst spool.now.current peer.now) }
    ensures none { option_copied result ≡ None → HasNone spool.now.current peer.now }
{
    match spool.lane_of(LaneRole::Initiator, peer, None) {
        Some(number) => spool.lane(number),
        None => None,
    }
}

/// What comes next with a peer, as the spool stands.
pub fn next_with<D: Disk + Drop, C: Clock + Drop>(
    alloc: Global,
    spool: &Spool<D, C>,
    peer: &Word,
) -> Result<Next, Memory>
    ensures exact { IfOk result (IsNext spool.now.current peer.now) }
    ensures fits { IfOk result IsProposed }
{
    let Some(tables) = spool.tables() else {
        return Ok(Next::NoPeer);
    };
    let Some(line) = line_in(alloc, tables, peer.as_slice())? else {
        return Ok(Next::NoPeer);
    };
    match open_lane(spool, peer) {
        Some(lane) => next_of_lane(alloc, tables, line, lane),
        None => next_of_none(alloc, tables, line, spool.moment(), spool.lane_count()),
    }
}
