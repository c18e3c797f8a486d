//! Reading records.

ghost use Rattle.std.specs.Prelude.{◌≡◌, ◌<◌, ◌^◌, length, IfOk, Ok};
ghost use Rattle.mta_records.specs.declared.kind.RecordKind.{RecordKind};
ghost use Rattle.mta_records.specs.declared.step.Step.{Step};
ghost use Rattle.mta_records.specs.Body.{two_numbers_and_moment, a_lane, an_activity, a_numbered_activity};
ghost use Rattle.mta_records.specs.LaneName.{a_lane_name};
ghost use Rattle.mta_records.specs.Body.{body_of, HasFields};
ghost use Rattle.mta_records.specs.Answered.{Gives};
ghost use Rattle.mta_records.specs.Reading.{Reads, fields_at, step_at, record_of};

use crate::fault::RecordFault;
use crate::fields::{
    Short, fault_kind_of, long_number_of, moment_of, number_of, numbers_of, reference_of, role_of,
    string_of, truth_of, word_of,
};
use crate::kind::RecordKind;
use crate::lane::LaneRole;
use crate::reference::Reference;
use crate::snapshots::snapshot_of;
use crate::step::Step;
use mta_ber::{Octets, Word};
use std::alloc::Global;

#[tactic(auto, unfolding(crate::specs::Body::two_and_moment_at))]
fn two_and_moment_of(octets: &[u8]) -> Result<((u32, u32, u64), &[u8]), Short>
    ensures { Gives (λ x. ((x.0.0, (x.0.1, x.0.2)), x.1.now)) result (two_numbers_and_moment.at octets.now) }
{
    let (first, rest) = number_of(octets)?;
    let (second, rest) = number_of(rest)?;
    let (moment, rest) = moment_of(rest)?;
    Ok(((first, second, moment), rest))
}

#[tactic(auto, unfolding(crate::specs::Body::lane_at))]
fn lane_of(octets: &[u8]) -> Result<((u32, u64), &[u8]), Short>
    ensures { Gives (λ x. ((x.0.0, x.0.1), x.1.now)) result (a_lane.at octets.now) }
{
    let (lane, rest) = number_of(octets)?;
    let (generation, rest) = long_number_of(rest)?;
    Ok(((lane, generation), rest))
}

#[tactic(auto, unfolding(crate::specs::Body::activity_at))]
fn activity_of(octets: &[u8]) -> Result<((u32, u64, u32), &[u8]), Short>
    ensures { Gives (λ x. (((x.0.0, x.0.1), x.0.2), x.1.now)) result (an_activity.at octets.now) }
{
    let ((lane, generation), rest) = lane_of(octets)?;
    let (activity, rest) = number_of(rest)?;
    Ok(((lane, generation, activity), rest))
}

#[tactic(auto, unfolding(crate::specs::Body::numbered_activity_at))]
fn numbered_activity_of(octets: &[u8]) -> Result<((u32, u64, u32, u32), &[u8]), Short>
    ensures { Gives (λ x. ((((x.0.0, x.0.1), x.0.2), x.0.3), x.1.now)) result (a_numbered_activity.at octets.now) }
{
    let ((lane, generation, activity), rest) = activity_of(octets)?;
    let (number, rest) = number_of(rest)?;
    Ok(((lane, generation, activity, number), rest))
}

#[tactic(auto, unfolding(crate::specs::LaneName::lane_name_at))]
pub fn lane_name_of(
    alloc: Global,
    octets: &[u8],
) -> Result<((LaneRole, Word, Reference), &[u8]), Short>
    ensures { Gives (λ x. ((x.0.0, (x.0.1, x.0.2)), x.1.now)) result (a_lane_name.at octets.now) }
{
    let (role, rest) = role_of(octets)?;
    let (peer, rest) = word_of(alloc, rest)?;
    let (reference, rest) = reference_of(alloc, rest)?;
    Ok(((role, peer, reference), rest))
}

#[tactic(auto, unfolding(crate::specs::Reading::fields_at))]
fn tables_of(alloc: Global, octets: &[u8]) -> Result<(Step, &[u8]), Short>
    ensures { Gives (λ x. (x.0, x.1.now)) result (fields_at RecordKind.Tables octets.now) }
{
    let (text, rest) = string_of(octets)?;
    let text = Octets::from_slice(alloc, text)?;
    Ok((Step::Tables { text }, rest))
}

#[tactic(auto, unfolding(crate::specs::Reading::fields_at))]
fn accept_of(alloc: Global, octets: &[u8]) -> Result<(Step, &[u8]), Short>
    ensures { Gives (λ x. (x.0, x.1.now)) result (fields_at RecordKind.Accept octets.now) }
{
    let (moment, rest) = moment_of(octets)?;
    let (apdu, rest) = string_of(rest)?;
    let apdu = Octets::from_slice(alloc, apdu)?;
    Ok((Step::Accept { moment, apdu }, rest))
}

#[tactic(auto, unfolding(crate::specs::Reading::fields_at))]
fn deliver_of(octets: &[u8]) -> Result<(Step, &[u8]), Short>
    ensures { Gives (λ x. (x.0, x.1.now)) result (fields_at RecordKind.Deliver octets.now) }
{
    let ((item, recipient, moment), rest) = two_and_moment_of(octets)?;
    let step = Step::Deliver {
        item,
        recipient,
        moment,
    };
    Ok((step, rest))
}

#[tactic(auto, unfolding(crate::specs::Reading::fields_at))]
fn expand_of(octets: &[u8]) -> Result<(Step, &[u8]), Short>
    ensures { Gives (λ x. (x.0, x.1.now)) result (fields_at RecordKind.Expand octets.now) }
{
    let ((item, recipient, moment), rest) = two_and_moment_of(octets)?;
    let step = Step::Expand {
        item,
        recipient,
        moment,
    };
    Ok((step, rest))
}

#[tactic(auto, unfolding(crate::specs::Reading::fields_at))]
fn report_of(octets: &[u8]) -> Result<(Step, &[u8]), Short>
    ensures { Gives (λ x. (x.0, x.1.now)) result (fields_at RecordKind.Report octets.now) }
{
    let ((item, recipient, moment), rest) = two_and_moment_of(octets)?;
    let step = Step::Report {
        item,
        recipient,
        moment,
    };
    Ok((step, rest))
}

#[tactic(auto, unfolding(crate::specs::Reading::fields_at))]
fn affirm_of(octets: &[u8]) -> Result<(Step, &[u8]), Short>
    ensures { Gives (λ x. (x.0, x.1.now)) result (fields_at RecordKind.Affirm octets.now) }
{
    let ((item, recipient, moment), rest) = two_and_moment_of(octets)?;
    let step = Step::Affirm {
        item,
        recipient,
        moment,
    };
    Ok((step, rest))
}

#[tactic(auto, unfolding(crate::specs::Reading::fields_at))]
fn discard_of(octets: &[u8]) -> Result<(Step, &[u8]), Short>
    ensures { Gives (λ x. (x.0, x.1.now)) result (fields_at RecordKind.Discard octets.now) }
{
    let ((item, recipient, moment), rest) = two_and_moment_of(octets)?;
    let step = Step::Discard {
        item,
        recipient,
        moment,
    };
    Ok((step, rest))
}

#[tactic(auto, unfolding(crate::specs::Reading::fields_at))]
fn back_of(octets: &[u8]) -> Result<(Step, &[u8]), Short>
    ensures { Gives (λ x. (x.0, x.1.now)) result (fields_at RecordKind.Back octets.now) }
{
    let ((item, recipient, moment), rest) = two_and_moment_of(octets)?;
    let step = Step::Back {
        item,
        recipient,
        moment,
    };
    Ok((step, rest))
}

#[tactic(auto, unfolding(crate::specs::Reading::fields_at))]
fn lane_open_of(alloc: Global, octets: &[u8]) -> Result<(Step, &[u8]), Short>
    ensures { Gives (λ x. (x.0, x.1.now)) result (fields_at RecordKind.LaneOpen octets.now) }
{
    let ((role, peer, reference), rest) = lane_name_of(alloc, octets)?;
    let (twa, rest) = truth_of(rest)?;
    let ((checkpoint, window, moment), rest) = two_and_moment_of(rest)?;
    let step = Step::LaneOpen {
        role,
        peer,
        reference,
        twa,
        checkpoint,
        window,
        moment,
    };
    Ok((step, rest))
}

#[tactic(auto, unfolding(crate::specs::Reading::fields_at))]
fn lane_agree_of(octets: &[u8]) -> Result<(Step, &[u8]), Short>
    ensures { Gives (λ x. (x.0, x.1.now)) result (fields_at RecordKind.LaneAgree octets.now) }
{
    let ((lane, generation), rest) = lane_of(octets)?;
    let (checkpoint, rest) = number_of(rest)?;
    let (window, rest) = number_of(rest)?;
    let step = Step::LaneAgree {
        lane,
        generation,
        checkpoint,
        window,
    };
    Ok((step, rest))
}

#[tactic(auto, unfolding(crate::specs::Reading::fields_at))]
fn bind_of(octets: &[u8]) -> Result<(Step, &[u8]), Short>
    ensures { Gives (λ x. (x.0, x.1.now)) result (fields_at RecordKind.Bind octets.now) }
{
    let ((lane, generation), rest) = lane_of(octets)?;
    let step = Step::Bind { lane, generation };
    Ok((step, rest))
}

#[tactic(auto, unfolding(crate::specs::Reading::fields_at))]
fn start_of(alloc: Global, octets: &[u8]) -> Result<(Step, &[u8]), Short>
    ensures { Gives (λ x. (x.0, x.1.now)) result (fields_at RecordKind.Start octets.now) }
{
    let ((lane, generation, activity, item), rest) = numbered_activity_of(octets)?;
    let (recipients, rest) = numbers_of(alloc, rest)?;
    let (moment, rest) = moment_of(rest)?;
    let step = Step::Start {
        lane,
        generation,
        activity,
        item,
        recipients,
        moment,
    };
    Ok((step, rest))
}

#[tactic(auto, unfolding(crate::specs::Reading::fields_at))]
fn confirm_of(octets: &[u8]) -> Result<(Step, &[u8]), Short>
    ensures { Gives (λ x. (x.0, x.1.now)) result (fields_at RecordKind.Confirm octets.now) }
{
    let ((lane, generation, activity, checkpoint), rest) = numbered_activity_of(octets)?;
    let step = Step::Confirm {
        lane,
        generation,
        activity,
        checkpoint,
    };
    Ok((step, rest))
}

#[tactic(auto, unfolding(crate::specs::Reading::fields_at))]
fn ending_of(octets: &[u8]) -> Result<(Step, &[u8]), Short>
    ensures { Gives (λ x. (x.0, x.1.now)) result (fields_at RecordKind.Ending octets.now) }
{
    let ((lane, generation, activity), rest) = activity_of(octets)?;
    let step = Step::Ending {
        lane,
        generation,
        activity,
    };
    Ok((step, rest))
}

#[tactic(auto, unfolding(crate::specs::Reading::fields_at))]
fn sent_of(octets: &[u8]) -> Result<(Step, &[u8]), Short>
    ensures { Gives (λ x. (x.0, x.1.now)) result (fields_at RecordKind.Sent octets.now) }
{
    let ((lane, generation, activity), rest) = activity_of(octets)?;
    let (moment, rest) = moment_of(rest)?;
    let step = Step::Sent {
        lane,
        generation,
        activity,
        moment,
    };
    Ok((step, rest))
}

#[tactic(auto, unfolding(crate::specs::Reading::fields_at))]
fn denied_of(octets: &[u8]) -> Result<(Step, &[u8]), Short>
    ensures { Gives (λ x. (x.0, x.1.now)) result (fields_at RecordKind.Denied octets.now) }
{
    let ((lane, generation, activity), rest) = activity_of(octets)?;
    let (moment, rest) = moment_of(rest)?;
    let step = Step::Denied {
        lane,
        generation,
        activity,
        moment,
    };
    Ok((step, rest))
}

#[tactic(auto, unfolding(crate::specs::Reading::fields_at))]
fn refused_of(octets: &[u8]) -> Result<(Step, &[u8]), Short>
    ensures { Gives (λ x. (x.0, x.1.now)) result (fields_at RecordKind.Refused octets.now) }
{
    let ((lane, generation, activity), rest) = activity_of(octets)?;
    let (kind, rest) = fault_kind_of(rest)?;
    let (moment, rest) = moment_of(rest)?;
    let step = Step::Refused {
        lane,
        generation,
        activity,
        kind,
        moment,
    };
    Ok((step, rest))
}

#[tactic(auto, unfolding(crate::specs::Reading::fields_at))]
fn dropped_of(octets: &[u8]) -> Result<(Step, &[u8]), Short>
    ensures { Gives (λ x. (x.0, x.1.now)) result (fields_at RecordKind.Dropped octets.now) }
{
    let ((lane, generation, activity), rest) = activity_of(octets)?;
    let step = Step::Dropped {
        lane,
        generation,
        activity,
    };
    Ok((step, rest))
}

#[tactic(auto, unfolding(crate::specs::Reading::fields_at))]
fn abandon_of(octets: &[u8]) -> Result<(Step, &[u8]), Short>
    ensures { Gives (λ x. (x.0, x.1.now)) result (fields_at RecordKind.Abandon octets.now) }
{
    let ((lane, activity, moment), rest) = two_and_moment_of(octets)?;
    let step = Step::Abandon {
        lane,
        activity,
        moment,
    };
    Ok((step, rest))
}

#[tactic(auto, unfolding(crate::specs::Reading::fields_at))]
fn secure_of(alloc: Global, octets: &[u8]) -> Result<(Step, &[u8]), Short>
    ensures { Gives (λ x. (x.0, x.1.now)) result (fields_at RecordKind.Secure octets.now) }
{
    let ((lane, generation, activity, number), rest) = numbered_activity_of(octets)?;
    let (piece, rest) = string_of(rest)?;
    let piece = Octets::from_slice(alloc, piece)?;
    let step = Step::Secure {
        lane,
        generation,
        activity,
        number,
        piece,
    };
    Ok((step, rest))
}

#[tactic(auto, unfolding(crate::specs::Reading::fields_at))]
fn complete_of(alloc: Global, octets: &[u8]) -> Result<(Step, &[u8]), Short>
    ensures { Gives (λ x. (x.0, x.1.now)) result (fields_at RecordKind.Complete octets.now) }
{
    let ((lane, generation, activity, number), rest) = numbered_activity_of(octets)?;
    let (piece, rest) = string_of(rest)?;
    let (moment, rest) = moment_of(rest)?;
    let piece = Octets::from_slice(alloc, piece)?;
    let step = Step::Complete {
        lane,
        generation,
        activity,
        number,
        piece,
        moment,
    };
    Ok((step, rest))
}

#[tactic(auto, unfolding(crate::specs::Reading::fields_at))]
fn drop_of(octets: &[u8]) -> Result<(Step, &[u8]), Short>
    ensures { Gives (λ x. (x.0, x.1.now)) result (fields_at RecordKind.Drop octets.now) }
{
    let ((lane, generation, activity), rest) = activity_of(octets)?;
    let step = Step::Drop {
        lane,
        generation,
        activity,
    };
    Ok((step, rest))
}

#[tactic(auto, unfolding(crate::specs::Reading::fields_at))]
fn close_lane_of(octets: &[u8]) -> Result<(Step, &[u8]), Short>
    ensures { Gives (λ x. (x.0, x.1.now)) result (fields_at RecordKind.CloseLane octets.now) }
{
    let ((lane, generation), rest) = lane_of(octets)?;
    let step = Step::CloseLane { lane, generation };
    Ok((step, rest))
}

#[tactic(auto, unfolding(crate::specs::Reading::fields_at))]
fn begin_of(alloc: Global, octets: &[u8]) -> Result<(Step, &[u8]), Short>
    ensures { Gives (λ x. (x.0, x.1.now)) result (fields_at RecordKind.Snapshot octets.now) }
{
    let (state, rest) = snapshot_of(alloc, octets)?;
    Ok((Step::Snapshot { state }, rest))
}

#[tactic(auto, unfolding(crate::specs::Reading::fields_at))]
fn format_of(octets: &[u8]) -> Result<(Step, &[u8]), Short>
    ensures { Gives (λ x. (x.0, x.1.now)) result (fields_at RecordKind.Format octets.now) }
{
    let (version, rest) = number_of(octets)?;
    if version != 2 {
        return Err(Short::Left(octets.len()));
    }
    Ok((Step::Format { version }, rest))
}

fn fields_of(alloc: Global, kind: RecordKind, octets: &[u8]) -> Result<(Step, &[u8]), Short>
    ensures { Gives (λ x. (x.0, x.1.now)) result (fields_at kind octets.now) }
{
    match kind {
        RecordKind::Tables => tables_of(alloc, octets),
        RecordKind::Accept => accept_of(alloc, octets),
        RecordKind::Deliver => deliver_of(octets),
        RecordKind::Expand => expand_of(octets),
        RecordKind::Report => report_of(octets),
        RecordKind::Affirm => affirm_of(octets),
        RecordKind::Discard => discard_of(octets),
        RecordKind::Back => back_of(octets),
        RecordKind::LaneOpen => lane_open_of(alloc, octets),
        RecordKind::LaneAgree => lane_agree_of(octets),
        RecordKind::Bind => bind_of(octets),
        RecordKind::Start => start_of(alloc, octets),
        RecordKind::Confirm => confirm_of(octets),
        RecordKind::Ending => ending_of(octets),
        RecordKind::Sent => sent_of(octets),
        RecordKind::Refused => refused_of(octets),
        RecordKind::Denied => denied_of(octets),
        RecordKind::Dropped => dropped_of(octets),
        RecordKind::Abandon => abandon_of(octets),
        RecordKind::Secure => secure_of(alloc, octets),
        RecordKind::Complete => complete_of(alloc, octets),
        RecordKind::Drop => drop_of(octets),
        RecordKind::CloseLane => close_lane_of(octets),
        RecordKind::Snapshot => begin_of(alloc, octets),
        RecordKind::Format => format_of(octets),
    }
}

#[tactic(auto, unfolding(crate::specs::Reading::step_at))]
fn step_of(alloc: Global, body: &[u8]) -> Result<Step, Short>
    requires { length body.now < 2 ^ 32 }
    ensures { Gives (λ x. x) result (step_at body.now) }
{
    let [octet, octets @ ..] = body else {
        return Err(Short::Left(0));
    };
    let Some(kind) = RecordKind::from_octet(*octet) else {
        return Err(Short::Left(body.len()));
    };
    let (step, rest) = fields_of(alloc, kind, octets)?;
    if !rest.is_empty() {
        return Err(Short::Left(rest.len()));
    }
    Ok(step)
}

#[tactic(auto, unfolding(crate::specs::Reading::record_of))]
fn record_of(alloc: Global, body: &[u8]) -> Result<Step, RecordFault>
    requires { length body.now < 2 ^ 32 }
    ensures { Reads result (record_of body.now) }
{
    match step_of(alloc, body) {
        Ok(step) => Ok(step),
        Err(Short::Left(left)) => Err(RecordFault::BadRecord {
            at: body.len().saturating_sub(left) as u32,
        }),
        Err(Short::Memory) => Err(RecordFault::Memory),
    }
}

/// The step whose record has this body.
pub fn read_record(alloc: Global, body: &[u8]) -> Result<Step, RecordFault>
    requires { length body.now < 2 ^ 32 }
    // The step, or the offset of the first field that is none.
    ensures exact { Reads result (record_of body.now) }
    // What is read is a step with this body.
    ensures found { IfOk result (λ step. HasFields step × (body_of step ≡ body.now)) }
    // A step with this body is read, unless memory runs out.
    ensures only { (step : Step) → HasFields step → body_of step ≡ body.now → Reads result (Ok step) }
{
    record_of(alloc, body)
}
