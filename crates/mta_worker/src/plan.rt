//! What the session of a lane proposes.

ghost use Rattle.std.specs.Prelude.{◌≡◌, ◌≤◌, IfOk};
ghost use Rattle.mta_ber.specs.Times.{last_moment};
ghost use Rattle.mta_procedures.specs.Reports.{digits};
ghost use Rattle.mta_worker.specs.PeerLines.{IsLine};
ghost use Rattle.mta_worker.specs.Plans.{IsPlan, new_reference, on_lane, plan_of, plan_to_open, plan_to_recover};

use crate::name::{name_shown, own_name};
use mta_ber::{Memory, Octets, Word};
use mta_records::Reference;
use mta_rules::put_digits;
use mta_session::{InitiatorPlan, Peer};
use mta_tables::Tables;
use std::alloc::Global;

// The number of a lane in ten decimal digits.
fn ten_digits(alloc: Global, number: u32) -> Result<Octets, Memory>
    ensures { IfOk result (λ o. o ≡ digits 10 number) }
{
    let mut octets = Vec::new(alloc);
    put_digits(&mut octets, 10, u64::from(number))?;
    Ok(Octets::from_vec(octets))
}

// The reference of a new lane.
fn new_reference(alloc: Global, own: &Word, moment: u64, lane: u32) -> Result<Reference, Memory>
    requires { moment ≤ last_moment }
    ensures { IfOk result (λ r. r ≡ new_reference own.now moment lane) }
{
    let calling = Octets::from_slice(alloc, own.as_slice())?;
    let additional = ten_digits(alloc, lane)?;
    Ok(Reference::new(calling, moment, Some(additional)))
}

// What is proposed on a line.
fn plan_of(own: Word, line: Peer, reference: Reference, recovering: bool) -> InitiatorPlan
    ensures { result ≡ plan_of own line reference recovering }
{
    let Peer {
        name,
        send_password,
        expected_password,
        twa,
        checkpoint,
        window,
    } = line;
    InitiatorPlan {
        own,
        peer: name,
        lane: 0,
        generation: 0,
        recovering,
        reference,
        checkpoint,
        window,
        twa,
        send_password,
        expected_password,
    }
}

/// What the session proposes that opens a new lane. `moment` is in seconds from 1950-01-01 00:00:00 UTC up to the last
/// of 2049, and `lane` is the number that the lane will have. The reference is the own name, the moment, and that
/// number in ten decimal digits.
pub fn plan_to_open(
    alloc: Global,
    tables: &Tables,
    line: Peer,
    moment: u64,
    lane: u32,
) -> Result<InitiatorPlan, Memory>
    requires { moment ≤ last_moment }
    ensures exact { IfOk result (λ p. p ≡ plan_to_open tables.now line moment lane) }
    ensures fits { IsLine line → IfOk result IsPlan }
{
    let own = own_name(tables)?;
    let reference = new_reference(alloc, &own, moment, lane)?;
    Ok(plan_of(own, line, reference, false))
}

/// What the session proposes that recovers the lane of a reference, under the name by which it was opened. A session
/// that recovers goes by the values of its lane, and not by those of the line.
pub fn plan_to_recover(
    alloc: Global,
    tables: &Tables,
    line: Peer,
    reference: &Reference,
) -> Result<InitiatorPlan, Memory>
    ensures exact { IfOk result (λ p. p ≡ plan_to_recover tables.now line reference.now) }
    ensures fits { IsLine line → IfOk result IsPlan }
{
    let own = name_shown(alloc, tables, reference)?;
    let reference = reference.copy(alloc)?;
    Ok(plan_of(own, line, reference, true))
}

/// A plan for this lane and this generation of it, as the step has answered that opened or bound the lane.
pub fn on_lane(plan: InitiatorPlan, lane: u32, generation: u64) -> InitiatorPlan
    ensures exact { result ≡ on_lane plan lane generation }
    ensures fits { IsPlan plan → IsPlan result }
{
    let mut plan = plan;
    plan.lane = lane;
    plan.generation = generation;
    plan
}
