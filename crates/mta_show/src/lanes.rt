//! The lines of the lanes that are open (X.228: associations with their recoveries).

ghost use Rattle.std.specs.Prelude.{◌≡◌, ◌++◌, OnOk, decimal};
ghost use Rattle.mta_show.specs.Lanes.{way_text, pair_text, sending_text, receiving_text, partner_text};
ghost use Rattle.mta_show.specs.Lanes.{association_text, values_text, halves_text, lane_line, lane_lines};

use mta_apdu_text::put_number;
use mta_ber::{Memory, Octets};
use mta_lane_recv::Last;
use mta_lane_send::SendState;
use mta_lanes::Lane;
use mta_records::LaneRole;

fn way_of(role: LaneRole) -> &'static [u8]
    ensures { result.now ≡ way_text role }
{
    match role {
        LaneRole::Initiator => b" out ",
        LaneRole::Responder => b" in ",
    }
}

// A word, with the space behind it, and a number.
fn put_counted(out: &mut Octets, word: &[u8], number: u32) -> Result<(), Memory>
    ensures { OnOk result (out.new ≡ out.old ++ (word.now ++ decimal number)) }
{
    out.extend(word)?;
    put_number(out, u64::from(number))
}

// A word, with the space behind it, an activity and how many pieces of it.
#[tactic(auto, unfolding(crate::specs::Lanes::pair_text))]
fn put_pair(out: &mut Octets, word: &[u8], activity: u32, pieces: u32) -> Result<(), Memory>
    ensures { OnOk result (out.new ≡ out.old ++ pair_text word.now activity pieces) }
{
    out.extend(word)?;
    put_number(out, u64::from(activity))?;
    out.extend(b" ")?;
    put_number(out, u64::from(pieces))
}

fn put_sending(out: &mut Octets, state: SendState) -> Result<(), Memory>
    ensures { OnOk result (out.new ≡ out.old ++ sending_text state) }
{
    match state {
        SendState::Idle { last } => put_counted(out, b"idle ", last),
        SendState::Sending {
            activity,
            confirmed,
        } => put_pair(out, b"sending ", activity, confirmed),
        SendState::Ending {
            activity,
            confirmed,
        } => put_pair(out, b"ending ", activity, confirmed),
        SendState::Dropping { activity } => put_counted(out, b"dropping ", activity),
    }
}

fn put_receiving(out: &mut Octets, last: Last) -> Result<(), Memory>
    ensures { OnOk result (out.new ≡ out.old ++ receiving_text last) }
{
    match last {
        Last::None => out.extend(b"none"),
        Last::Partial { activity, pieces } => put_pair(out, b"partial ", activity, pieces),
        Last::Done { activity } => put_counted(out, b"done ", activity),
    }
}

#[tactic(auto, unfolding(crate::specs::Lanes::partner_text))]
fn put_partner(out: &mut Octets, lane: &Lane) -> Result<(), Memory>
    ensures { OnOk result (out.new ≡ out.old ++ partner_text lane.now) }
{
    out.extend(way_of(lane.role()))?;
    out.extend(lane.peer().as_slice())
}

#[tactic(auto, unfolding(crate::specs::Lanes::association_text))]
fn put_association(out: &mut Octets, lane: &Lane) -> Result<(), Memory>
    ensures { OnOk result (out.new ≡ out.old ++ association_text lane.now) }
{
    out.extend(b"lane ")?;
    put_number(out, u64::from(lane.number()))?;
    put_partner(out, lane)?;
    out.extend(b" generation ")?;
    put_number(out, lane.generation())
}

#[tactic(auto, unfolding(crate::specs::Lanes::values_text))]
fn put_values(out: &mut Octets, lane: &Lane) -> Result<(), Memory>
    ensures { OnOk result (out.new ≡ out.old ++ values_text lane.now) }
{
    let values = lane.values();
    out.extend(b" size ")?;
    put_number(out, u64::from(values.checkpoint))?;
    out.extend(b" window ")?;
    put_number(out, u64::from(values.window))
}

#[tactic(auto, unfolding(crate::specs::Lanes::halves_text))]
fn put_halves(out: &mut Octets, lane: &Lane) -> Result<(), Memory>
    ensures { OnOk result (out.new ≡ out.old ++ halves_text lane.now) }
{
    let (_, last) = lane.receiving();
    out.extend(b" send ")?;
    put_sending(out, lane.sending())?;
    out.extend(b" receive ")?;
    put_receiving(out, last)?;
    out.extend(b"\n")
}

#[tactic(auto, unfolding(crate::specs::Lanes::lane_line))]
fn put_lane_line(out: &mut Octets, lane: &Lane) -> Result<(), Memory>
    ensures { OnOk result (out.new ≡ out.old ++ lane_line lane.now) }
{
    put_association(out, lane)?;
    put_values(out, lane)?;
    put_halves(out, lane)
}

/// A line per open lane, in the order of their numbers.
pub fn put_lane_lines(out: &mut Octets, lanes: &[Lane]) -> Result<(), Memory>
    ensures { OnOk result (out.new ≡ out.old ++ lane_lines lanes.now) }
{
    for lane in lanes {
        put_lane_line(out, lane)?;
    }
    Ok(())
}
