//! The halves of a lane as a record has them.

ghost use Rattle.std.specs.Prelude.{◌≡◌, ◌≤◌, ◌↔◌, true, length, IsTrue};
ghost use Rattle.std.specs.List.{AllByRecursion, concat};
ghost use Rattle.mta_histories.specs.Lanes.{total_of};
ghost use Rattle.mta_histories.specs.Limits.{longest_activity};
ghost use Rattle.mta_lane_recv.specs.declared.state.Last.TheVariants as lasts;
ghost use Rattle.mta_lane_send.specs.Half.{FitsState};
ghost use Rattle.mta_lane_send.specs.Pieces.{has_piece_after};
ghost use Rattle.mta_snapshots.specs.Lanes.{Carries, HasSize, HasValues, HoldsTo, IsAlone, IsSpelled};

use mta_ber::Octets;
use mta_lane_recv::{Last, longest_piece};
use mta_lane_send::SendState;
use mta_records::{LaneRecord, LaneRole, TransferRecord};

/// Octets in a unit of the checkpoint size.
const UNIT: u64 = 1024;

/// The most octets of an activity.
const MOST: u64 = 2_097_152;

fn total_of(transfer: &Option<TransferRecord>) -> u32
    ensures { result ≡ total_of transfer.now }
{
    match transfer {
        Some(transfer) => transfer.outgoing.total(),
        None => 0,
    }
}

// Whether so many octets have a piece behind the first ones, as many as are told.
fn has_piece_after(checkpoint: u32, total: u32, number: u32) -> bool
    requires { checkpoint ≤ 64 }
    ensures { result ≡ has_piece_after checkpoint total number }
{
    if checkpoint == 0 {
        number == 0
    } else {
        UNIT * u64::from(checkpoint) * u64::from(number) < u64::from(total)
    }
}

// Whether the state of a sending half fits the octets of its activity.
fn fits_state(checkpoint: u32, sending: SendState, total: u32) -> bool
    requires { checkpoint ≤ 64 }
    ensures { IsTrue result ↔ FitsState checkpoint sending total }
{
    match sending {
        SendState::Idle { .. } => total == 0,
        SendState::Sending { confirmed, .. } => {
            1 <= total && has_piece_after(checkpoint, total, confirmed)
        }
        SendState::Ending { confirmed, .. } => {
            1 <= total && has_piece_after(checkpoint, total, confirmed)
        }
        SendState::Dropping { .. } => true,
    }
}

// Whether the sending half fits what it transfers: an activity under way has a number, and some octets, which are not
// too many.
fn carries(checkpoint: u32, sending: SendState, total: u32) -> bool
    requires { checkpoint ≤ 64 }
    ensures { IsTrue result ↔ Carries checkpoint sending total }
{
    fits_state(checkpoint, sending, total)
        && (sending.is_idle() || (1 <= total && u64::from(total) <= MOST && 1 <= sending.last()))
}

fn has_values(checkpoint: u32, window: u32) -> bool
    ensures { IsTrue result ↔ HasValues checkpoint window }
{
    checkpoint <= 64 && 1 <= window && window <= 8
}

fn is_nothing(last: Last) -> bool
    ensures { IsTrue result ↔ (last ≡ lasts.None) }
{
    match last {
        Last::None => true,
        Last::Partial { .. } => false,
        Last::Done { .. } => false,
    }
}

// Whether the values are agreed as they are to be: a responder's are, and before they are nothing is transferred.
fn holds_to(role: LaneRole, agreed: bool, sending: SendState, last: Last) -> bool
    ensures { IsTrue result ↔ HoldsTo role agreed sending last }
{
    match role {
        LaneRole::Initiator => agreed || (sending.is_idle() && is_nothing(last)),
        LaneRole::Responder => agreed,
    }
}

// Whether the pieces have not too many octets.
fn are_within(pieces: &[Octets]) -> bool
    ensures { IsTrue result ↔ (length (concat pieces.now) ≤ longest_activity) }
{
    let mut size: u64 = 0;
    for piece in pieces {
        let more = piece.len() as u64;
        if more > MOST - size {
            return false;
        }
        size += more;
    }
    true
}

fn has_size(checkpoint: u32, piece: &[u8]) -> bool
    ensures { IsTrue result ↔ HasSize checkpoint piece.now }
{
    1 <= piece.len() && piece.len() as u64 <= longest_piece(checkpoint)
}

// Whether each piece has some octets, and not too many.
fn have_sizes(checkpoint: u32, pieces: &[Octets]) -> bool
    ensures { IsTrue result ↔ AllByRecursion (HasSize checkpoint) pieces.now }
{
    for piece in pieces {
        if !has_size(checkpoint, piece.as_slice()) {
            return false;
        }
    }
    true
}

/// Whether the halves of a lane fit what is kept of them.
pub(crate) fn is_alone(recorded: &LaneRecord) -> bool
    requires { IsSpelled recorded.now }
    ensures { IsTrue result ↔ IsAlone recorded.now }
{
    let checkpoint = recorded.values.checkpoint;
    let total = total_of(&recorded.transfer);
    has_values(checkpoint, recorded.values.window)
        && holds_to(
            recorded.role,
            recorded.values.agreed,
            recorded.sending,
            recorded.last,
        )
        && carries(checkpoint, recorded.sending, total)
        && are_within(recorded.pieces.as_slice())
        && have_sizes(checkpoint, recorded.pieces.as_slice())
}
