//! Writing records.

ghost use Rattle.std.specs.Prelude.{◌≡◌, ◌++◌, ◌≤◌, ◌<◌, ◌^◌, [], length, IfOk, OnOk};
ghost use Rattle.mta_records.specs.declared.step.Step.{Step};
ghost use Rattle.mta_records.specs.Body.{two_numbers_and_moment, a_lane, an_activity, a_numbered_activity};
ghost use Rattle.mta_records.specs.LaneName.{a_lane_name};
ghost use Rattle.mta_records.specs.Body.{kind_of, fields_of, body_of, HasFields};
ghost use Rattle.mta_records.specs.Fields.{a_number, a_long_number, a_string, a_fault_kind, a_truth, a_role};
ghost use Rattle.mta_records.specs.Fields.{an_additional, a_reference, some_numbers};
ghost use Rattle.mta_records.specs.Form.{an_octet};
ghost use Rattle.std.specs.Option.{option_copied};

use crate::lane::LaneRole;
use crate::reference::Reference;
use crate::snapshots::put_snapshot;
use crate::step::Step;
use mta_ber::{Memory, Octets, Word};
use std::alloc::Global;

pub fn put_octet(out: &mut Octets, octet: u8) -> Result<(), Memory>
    ensures { OnOk result (out.new ≡ out.old ++ an_octet.spelled octet) }
{
    out.extend(&[octet])
}

#[tactic(auto, unfolding(crate::specs::Form::number_octets))]
pub fn put_number(out: &mut Octets, number: u32) -> Result<(), Memory>
    ensures { OnOk result (out.new ≡ out.old ++ a_number.spelled number) }
{
    out.extend(&number.to_be_bytes())
}

/// A number of eight octets, or a moment.
#[tactic(auto, unfolding(crate::specs::Form::number_octets))]
pub fn put_long_number(out: &mut Octets, number: u64) -> Result<(), Memory>
    ensures { OnOk result (out.new ≡ out.old ++ a_long_number.spelled number) }
{
    out.extend(&number.to_be_bytes())
}

#[tactic(auto, unfolding(crate::specs::Fields::string))]
pub fn put_string(out: &mut Octets, octets: &[u8]) -> Result<(), Memory>
    requires { length octets.now < 2 ^ 32 }
    ensures { OnOk result (out.new ≡ out.old ++ a_string.spelled octets.now) }
{
    put_number(out, octets.len() as u32)?;
    out.extend(octets)
}

pub fn put_truth(out: &mut Octets, truth: bool) -> Result<(), Memory>
    ensures { OnOk result (out.new ≡ out.old ++ a_truth.spelled truth) }
{
    put_octet(out, if truth { 1 } else { 0 })
}

fn put_role(out: &mut Octets, role: LaneRole) -> Result<(), Memory>
    ensures { OnOk result (out.new ≡ out.old ++ a_role.spelled role) }
{
    match role {
        LaneRole::Initiator => put_octet(out, 0),
        LaneRole::Responder => put_octet(out, 1),
    }
}

#[tactic(auto, unfolding(crate::specs::Fields::numbers))]
pub fn put_numbers(out: &mut Octets, numbers: &[u32]) -> Result<(), Memory>
    requires { length numbers.now < 2 ^ 32 }
    ensures { OnOk result (out.new ≡ out.old ++ some_numbers.spelled numbers.now) }
{
    put_number(out, numbers.len() as u32)?;
    for number in numbers {
        put_number(out, *number)?;
    }
    Ok(())
}

#[tactic(auto, unfolding(crate::specs::Fields::additional))]
fn put_additional(out: &mut Octets, additional: Option<&[u8]>) -> Result<(), Memory>
    requires { an_additional.Fits (option_copied additional) }
    ensures { OnOk result (out.new ≡ out.old ++ an_additional.spelled (option_copied additional.entry)) }
{
    put_truth(out, additional.is_some())?;
    put_string(out, additional.unwrap_or(&[]))
}

#[tactic(auto, unfolding(crate::specs::Fields::reference))]
fn put_reference(out: &mut Octets, reference: &Reference) -> Result<(), Memory>
    ensures { OnOk result (out.new ≡ out.old ++ a_reference.spelled reference.now) }
{
    put_string(out, reference.calling())?;
    put_long_number(out, reference.common())?;
    put_additional(out, reference.additional())
}

#[tactic(auto, unfolding(crate::specs::Body::two_and_moment_octets))]
fn put_two_and_moment(out: &mut Octets, first: u32, second: u32, moment: u64) -> Result<(), Memory>
    ensures { OnOk result (out.new ≡ out.old ++ two_numbers_and_moment.spelled (first, (second, moment))) }
{
    put_number(out, first)?;
    put_number(out, second)?;
    put_long_number(out, moment)
}

#[tactic(auto, unfolding(crate::specs::Body::lane_octets))]
fn put_lane(out: &mut Octets, lane: u32, generation: u64) -> Result<(), Memory>
    ensures { OnOk result (out.new ≡ out.old ++ a_lane.spelled (lane, generation)) }
{
    put_number(out, lane)?;
    put_long_number(out, generation)
}

#[tactic(auto, unfolding(crate::specs::Body::activity_octets))]
fn put_activity(out: &mut Octets, lane: u32, generation: u64, activity: u32) -> Result<(), Memory>
    ensures { OnOk result (out.new ≡ out.old ++ an_activity.spelled ((lane, generation), activity)) }
{
    put_lane(out, lane, generation)?;
    put_number(out, activity)
}

#[tactic(auto, unfolding(crate::specs::Body::numbered_activity_octets))]
fn put_numbered_activity(
    out: &mut Octets,
    lane: u32,
    generation: u64,
    activity: u32,
    number: u32,
) -> Result<(), Memory>
    ensures { OnOk result (out.new ≡ out.old ++ a_numbered_activity.spelled
        (((lane, generation), activity), number)) }
{
    put_activity(out, lane, generation, activity)?;
    put_number(out, number)
}

#[tactic(auto, unfolding(crate::specs::LaneName::lane_name_octets))]
pub fn put_lane_name(
    out: &mut Octets,
    role: LaneRole,
    peer: &Word,
    reference: &Reference,
) -> Result<(), Memory>
    ensures { OnOk result (out.new ≡ out.old ++ a_lane_name.spelled (role, (peer.now, reference.now))) }
{
    put_role(out, role)?;
    put_string(out, peer.as_slice())?;
    put_reference(out, reference)
}

fn put_accept(out: &mut Octets, moment: u64, apdu: &[u8]) -> Result<(), Memory>
    requires { length apdu.now < 2 ^ 32 }
    ensures { OnOk result (out.new ≡ out.old ++ fields_of (Step.Accept moment apdu.now)) }
{
    put_long_number(out, moment)?;
    put_string(out, apdu)
}

fn put_lane_agree(
    out: &mut Octets,
    lane: u32,
    generation: u64,
    checkpoint: u32,
    window: u32,
) -> Result<(), Memory>
    ensures { OnOk result (out.new ≡ out.old ++ fields_of (Step.LaneAgree lane generation checkpoint window)) }
{
    put_lane(out, lane, generation)?;
    put_number(out, checkpoint)?;
    put_number(out, window)
}

fn put_timed_activity(
    out: &mut Octets,
    lane: u32,
    generation: u64,
    activity: u32,
    moment: u64,
) -> Result<(), Memory>
    ensures { OnOk result (out.new ≡ out.old ++ fields_of (Step.Sent lane generation activity moment)) }
{
    put_activity(out, lane, generation, activity)?;
    put_long_number(out, moment)
}

fn put_refused(
    out: &mut Octets,
    lane: u32,
    generation: u64,
    activity: u32,
    kind: u8,
    moment: u64,
) -> Result<(), Memory>
    ensures { OnOk result (out.new ≡ out.old ++ fields_of (Step.Refused lane generation activity kind moment)) }
{
    put_activity(out, lane, generation, activity)?;
    put_octet(out, kind)?;
    put_long_number(out, moment)
}

/// Whether the turn may pass, the checkpoint size and the window of a lane, and a moment.
fn put_lane_terms(
    out: &mut Octets,
    twa: bool,
    checkpoint: u32,
    window: u32,
    moment: u64,
) -> Result<(), Memory>
    ensures { OnOk result (out.new ≡ out.old ++ (a_truth.spelled twa
        ++ two_numbers_and_moment.spelled (checkpoint, (window, moment)))) }
{
    put_truth(out, twa)?;
    put_two_and_moment(out, checkpoint, window, moment)
}

fn put_start(
    out: &mut Octets,
    lane: u32,
    generation: u64,
    activity: u32,
    item: u32,
    recipients: &[u32],
    moment: u64,
) -> Result<(), Memory>
    requires { length recipients.now < 2 ^ 32 }
    ensures { OnOk result (out.new ≡ out.old ++ fields_of
        (Step.Start lane generation activity item recipients.now moment)) }
{
    put_numbered_activity(out, lane, generation, activity, item)?;
    put_numbers(out, recipients)?;
    put_long_number(out, moment)
}

fn put_secure(
    out: &mut Octets,
    lane: u32,
    generation: u64,
    activity: u32,
    number: u32,
    piece: &[u8],
) -> Result<(), Memory>
    requires { length piece.now < 2 ^ 32 }
    ensures { OnOk result (out.new ≡ out.old ++ fields_of
        (Step.Secure lane generation activity number piece.now)) }
{
    put_numbered_activity(out, lane, generation, activity, number)?;
    put_string(out, piece)
}

fn put_complete(
    out: &mut Octets,
    lane: u32,
    generation: u64,
    activity: u32,
    number: u32,
    piece: &[u8],
    moment: u64,
) -> Result<(), Memory>
    requires { length piece.now < 2 ^ 32 }
    ensures { OnOk result (out.new ≡ out.old ++ fields_of
        (Step.Complete lane generation activity number piece.now moment)) }
{
    put_numbered_activity(out, lane, generation, activity, number)?;
    put_string(out, piece)?;
    put_long_number(out, moment)
}

/// A step of this kind, taken apart.
macro_rules! fields {
    ($kind:ident { $($field:ident),+ }) => {
        Step::$kind { $($field),+ }
    };
}

fn put_fields(out: &mut Octets, step: &Step) -> Result<(), Memory>
    requires { HasFields step.now }
    ensures { OnOk result (out.new ≡ out.old ++ fields_of step.now) }
{
    match step {
        Step::Tables { text } => put_string(out, text.as_slice()),
        Step::Accept { moment, apdu } => put_accept(out, *moment, apdu.as_slice()),
        fields!(Deliver {
            item,
            recipient,
            moment
        })
        | fields!(Expand {
            item,
            recipient,
            moment
        })
        | fields!(Report {
            item,
            recipient,
            moment
        })
        | fields!(Affirm {
            item,
            recipient,
            moment
        })
        | fields!(Discard {
            item,
            recipient,
            moment
        })
        | fields!(Back {
            item,
            recipient,
            moment
        }) => put_two_and_moment(out, *item, *recipient, *moment),
        fields!(LaneOpen {
            role,
            peer,
            reference,
            twa,
            checkpoint,
            window,
            moment
        }) => {
            put_lane_name(out, *role, peer, reference)?;
            put_lane_terms(out, *twa, *checkpoint, *window, *moment)
        }
        fields!(LaneAgree {
            lane,
            generation,
            checkpoint,
            window
        }) => { put_lane_agree(out, *lane, *generation, *checkpoint, *window) }
        Step::Bind { lane, generation } | Step::CloseLane { lane, generation } => put_lane(
            out,
            *lane,
            *generation,
        ),
        fields!(Start {
            lane,
            generation,
            activity,
            item,
            recipients,
            moment
        }) => {
            put_start(
                out,
                *lane,
                *generation,
                *activity,
                *item,
                recipients.as_slice(),
                *moment,
            )
        }
        fields!(Confirm {
            lane,
            generation,
            activity,
            checkpoint
        }) => { put_numbered_activity(out, *lane, *generation, *activity, *checkpoint) }
        fields!(Ending {
            lane,
            generation,
            activity
        })
        | fields!(Dropped {
            lane,
            generation,
            activity
        })
        | fields!(Drop {
            lane,
            generation,
            activity
        }) => put_activity(out, *lane, *generation, *activity),
        fields!(Sent {
            lane,
            generation,
            activity,
            moment
        })
        | fields!(Denied {
            lane,
            generation,
            activity,
            moment
        }) => { put_timed_activity(out, *lane, *generation, *activity, *moment) }
        fields!(Refused {
            lane,
            generation,
            activity,
            kind,
            moment
        }) => { put_refused(out, *lane, *generation, *activity, *kind, *moment) }
        fields!(Abandon {
            lane,
            activity,
            moment
        }) => put_two_and_moment(out, *lane, *activity, *moment),
        fields!(Secure {
            lane,
            generation,
            activity,
            number,
            piece
        }) => {
            put_secure(
                out,
                *lane,
                *generation,
                *activity,
                *number,
                piece.as_slice(),
            )
        }
        fields!(Complete {
            lane,
            generation,
            activity,
            number,
            piece,
            moment
        }) => {
            put_complete(
                out,
                *lane,
                *generation,
                *activity,
                *number,
                piece.as_slice(),
                *moment,
            )
        }
        Step::Snapshot { state } => put_snapshot(out, state),
        Step::Format { version } => put_number(out, *version),
    }
}

/// An empty buffer, which has room for the whole body of a snapshot.
fn buffer_for(alloc: Global, step: &Step) -> Result<Octets, Memory>
    ensures { IfOk result (λ o. o ≡ []) }
{
    match step {
        Step::Snapshot { state } => {
            let room = Vec::with_capacity(alloc, state.size().saturating_add(1) as usize)?;
            Ok(Octets::from_vec(room))
        }
        _ => Ok(Octets::new(alloc)),
    }
}

/// The body of a step's record.
pub fn write_record(alloc: Global, step: &Step) -> Result<Octets, Memory>
    requires { HasFields step.now }
    ensures { IfOk result (λ body. body ≡ body_of step.now) }
{
    let mut body = buffer_for(alloc, step)?;
    put_octet(&mut body, step.kind().octet())?;
    put_fields(&mut body, step)?;
    Ok(body)
}
