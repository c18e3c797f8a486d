//! The lanes of a snapshot, as fields of its record.

ghost use Rattle.std.specs.Prelude.{◌≡◌, ◌++◌, ◌<◌, ◌^◌, ◌∷◌, [], length, IfOk, OnOk, if◌then◌else◌, ℕ};
ghost use Rattle.mta_records.specs.Answered.{Gives};
ghost use Rattle.mta_records.specs.Fields.{a_number, a_string};
ghost use Rattle.mta_records.specs.Form.{both};
ghost use Rattle.mta_records.specs.Sizes.{capped};
ghost use Rattle.mta_records.specs.Snapshots.{no_number, no_numbers, no_moment, no_string, a_place, start_format};
ghost use Rattle.mta_records.specs.Snapshots.{no_start_format, a_transfer, unused, all_zero, sending_form, transfer_in};
ghost use Rattle.mta_records.specs.Snapshots.{IsGiven};
ghost use Rattle.mta_records.specs.Snapshots.{receiving_form, some_pieces, some_values, lane_form};

use crate::fields::{
    Short, long_number_of, moment_of, number_of, numbers_of, octet_of, string_of, truth_of,
};
use crate::lane::LaneValues;
use crate::lists::{Field, list_of, list_size, put_list};
use crate::outgoing::Outgoing;
use crate::reading::lane_name_of;
use crate::sizes::{lane_name_size, numbers_size};
use crate::snapshot::{LaneRecord, TransferRecord};
use crate::writing::{
    put_lane_name, put_long_number, put_number, put_numbers, put_octet, put_truth,
};
use mta_ber::{Memory, Octets};
use mta_lane_recv::Last;
use mta_lane_send::SendState;
use std::alloc::Global;

// ---- fields in which nothing else may stand

fn no_number_of(octets: &[u8]) -> Result<&[u8], Short>
    ensures { Gives (λ r. (tt, r.now)) result (no_number.at octets.now) }
{
    let (number, rest) = number_of(octets)?;
    if number != 0 {
        return Err(Short::Left(octets.len()));
    }
    Ok(rest)
}

fn no_moment_of(octets: &[u8]) -> Result<&[u8], Short>
    ensures { Gives (λ r. (tt, r.now)) result (no_moment.at octets.now) }
{
    let (moment, rest) = moment_of(octets)?;
    if moment != 0 {
        return Err(Short::Left(octets.len()));
    }
    Ok(rest)
}

fn no_numbers_of(alloc: Global, octets: &[u8]) -> Result<&[u8], Short>
    ensures { Gives (λ r. (tt, r.now)) result (no_numbers.at octets.now) }
{
    let (numbers, rest) = numbers_of(alloc, octets)?;
    match numbers.as_slice() {
        [] => Ok(rest),
        [_, ..] => Err(Short::Left(octets.len())),
    }
}

fn no_string_of(octets: &[u8]) -> Result<&[u8], Short>
    ensures { Gives (λ r. (tt, r.now)) result (no_string.at octets.now) }
{
    let (string, rest) = string_of(octets)?;
    match string {
        [] => Ok(rest),
        [_, ..] => Err(Short::Left(octets.len())),
    }
}

// ---- transfers

/// A number that counts from 1.
fn place_of(octets: &[u8]) -> Result<(u32, &[u8]), Short>
    ensures { Gives (λ x. (x.0, x.1.now)) result (a_place.at octets.now) }
{
    let (place, rest) = number_of(octets)?;
    if place == 0 {
        return Err(Short::Left(octets.len()));
    }
    Ok((place, rest))
}

/// The format at a Start: a field in format 2, and 1 in format 1.
fn start_format_of(two: bool, octets: &[u8]) -> Result<(u32, &[u8]), Short>
    ensures { Gives (λ x. (x.0, x.1.now)) result ((start_format two).at octets.now) }
{
    if two {
        number_of(octets)
    } else {
        Ok((1, octets))
    }
}

fn no_start_format_of(two: bool, octets: &[u8]) -> Result<&[u8], Short>
    ensures { Gives (λ r. (tt, r.now)) result ((no_start_format two).at octets.now) }
{
    if two {
        no_number_of(octets)
    } else {
        Ok(octets)
    }
}

/// The octets of an activity, of which none is shared.
fn outgoing_of(alloc: Global, activity: u32, octets: &[u8]) -> Result<(Outgoing, &[u8]), Short>
    ensures { Gives (λ x. (x.0.octets, x.1.now)) result (a_string.at octets.now) }
{
    let (string, rest) = string_of(octets)?;
    let outgoing = Outgoing::alone(alloc, activity, Octets::from_slice(alloc, string)?)?;
    Ok((outgoing, rest))
}

/// What an activity transfers.
#[tactic(auto, unfolding(crate::specs::Snapshots::a_transfer))]
fn transfer_of(
    alloc: Global,
    two: bool,
    activity: u32,
    octets: &[u8],
) -> Result<(TransferRecord, &[u8]), Short>
    ensures { Gives (λ x. (x.0, x.1.now)) result ((a_transfer two).at octets.now) }
{
    let (item, rest) = number_of(octets)?;
    let (recipients, rest) = numbers_of(alloc, rest)?;
    let (moment, rest) = moment_of(rest)?;
    let (tables, rest) = place_of(rest)?;
    let (format, rest) = start_format_of(two, rest)?;
    let (outgoing, rest) = outgoing_of(alloc, activity, rest)?;
    let transfer = TransferRecord {
        item,
        recipients,
        moment,
        tables,
        format,
        outgoing,
    };
    Ok((transfer, rest))
}

/// What stands in place of a transfer where there is none.
#[tactic(auto, unfolding(crate::specs::Snapshots::unused))]
fn unused_of(alloc: Global, two: bool, octets: &[u8]) -> Result<&[u8], Short>
    ensures { Gives (λ r. (all_zero, r.now)) result ((unused two).at octets.now) }
{
    let rest = no_number_of(octets)?;
    let rest = no_numbers_of(alloc, rest)?;
    let rest = no_moment_of(rest)?;
    let rest = no_number_of(rest)?;
    let rest = no_start_format_of(two, rest)?;
    no_string_of(rest)
}

/// The format at a Start, which is no field in format 1.
fn put_start_format(out: &mut Octets, two: bool, format: u32) -> Result<(), Memory>
    ensures { OnOk result (out.new ≡ out.old ++ (start_format two).spelled format) }
{
    if two { put_number(out, format) } else { Ok(()) }
}

/// The octets of an activity, behind their number.
#[tactic(auto, unfolding(crate::specs::Fields::string))]
fn put_outgoing(out: &mut Octets, outgoing: &Outgoing) -> Result<(), Memory>
    ensures { OnOk result (out.new ≡ out.old ++ a_string.spelled outgoing.now.octets) }
{
    let total = outgoing.total();
    let (first, second) = outgoing.cut(0, total);
    put_number(out, total)?;
    out.extend(first)?;
    out.extend(second)
}

/// What an activity transfers.
#[tactic(auto, unfolding(crate::specs::Snapshots::a_transfer))]
fn put_transfer(out: &mut Octets, two: bool, transfer: &TransferRecord) -> Result<(), Memory>
    requires { length transfer.now.recipients < 2 ^ 32 }
    ensures { OnOk result (out.new ≡ out.old ++ (a_transfer two).spelled transfer.now) }
{
    put_number(out, transfer.item)?;
    put_numbers(out, transfer.recipients.as_slice())?;
    put_long_number(out, transfer.moment)?;
    put_number(out, transfer.tables)?;
    put_start_format(out, two, transfer.format)?;
    put_outgoing(out, &transfer.outgoing)
}

/// Zeros in place of a transfer.
#[tactic(auto, unfolding(crate::specs::Snapshots::unused, crate::specs::Fields::numbers, crate::specs::Fields::string))]
fn put_unused(out: &mut Octets, two: bool) -> Result<(), Memory>
    ensures { OnOk result (out.new ≡ out.old ++ (unused two).spelled all_zero) }
{
    put_number(out, 0)?;
    put_number(out, 0)?;
    put_long_number(out, 0)?;
    put_number(out, 0)?;
    put_start_format(out, two, 0)?;
    put_number(out, 0)
}

/// How many octets the fields of a transfer have whose lengths are the same in each.
fn fixed_size(two: bool) -> u64
    ensures { result ≡ (if two then 24 else 20) }
{
    if two { 24 } else { 20 }
}

/// How many octets the fields of a transfer have.
fn transfer_size(two: bool, transfer: &TransferRecord) -> u64
    ensures { result ≡ capped (length ((a_transfer two).spelled transfer.now)) }
{
    numbers_size(transfer.recipients.as_slice())
        .saturating_add(transfer.outgoing.total() as u64)
        .saturating_add(fixed_size(two))
}

// ---- sending halves

/// A half that transfers nothing.
fn idle_of(alloc: Global, two: bool, octets: &[u8]) -> Result<(u32, &[u8]), Short>
    ensures { Gives (λ x. ((x.0, (tt, all_zero)), x.1.now)) result
        ((both a_number (both no_number (unused two))).at octets.now) }
{
    let (last, rest) = number_of(octets)?;
    let rest = no_number_of(rest)?;
    let rest = unused_of(alloc, two, rest)?;
    Ok((last, rest))
}

/// A half that transfers an activity: the activity, how many pieces are confirmed, and what is transferred.
fn live_of(
    alloc: Global,
    two: bool,
    octets: &[u8],
) -> Result<((u32, u32, TransferRecord), &[u8]), Short>
    ensures { Gives (λ x. ((x.0.0, (x.0.1, x.0.2)), x.1.now)) result
        ((both a_number (both a_number (a_transfer two))).at octets.now) }
{
    let (activity, rest) = number_of(octets)?;
    let (confirmed, rest) = number_of(rest)?;
    let (transfer, rest) = transfer_of(alloc, two, activity, rest)?;
    Ok(((activity, confirmed, transfer), rest))
}

/// A half that gives an activity up.
fn dropping_of(
    alloc: Global,
    two: bool,
    octets: &[u8],
) -> Result<((u32, TransferRecord), &[u8]), Short>
    ensures { Gives (λ x. ((x.0.0, (tt, x.0.1)), x.1.now)) result
        ((both a_number (both no_number (a_transfer two))).at octets.now) }
{
    let (activity, rest) = number_of(octets)?;
    let rest = no_number_of(rest)?;
    let (transfer, rest) = transfer_of(alloc, two, activity, rest)?;
    Ok(((activity, transfer), rest))
}

/// A sending half: its state, and what stands of it.
#[tactic(auto, unfolding(crate::specs::Snapshots::sending_form))]
fn sending_half_of(
    alloc: Global,
    two: bool,
    octets: &[u8],
) -> Result<((SendState, Option<TransferRecord>), &[u8]), Short>
    ensures { Gives (λ x. ((x.0.0, x.0.1), x.1.now)) result ((sending_form two).at octets.now) }
{
    let (stage, rest) = octet_of(octets)?;
    match stage {
        0 => {
            let (last, rest) = idle_of(alloc, two, rest)?;
            Ok(((SendState::Idle { last }, None), rest))
        }
        1 => {
            let ((activity, confirmed, transfer), rest) = live_of(alloc, two, rest)?;
            let sending = SendState::Sending {
                activity,
                confirmed,
            };
            Ok(((sending, Some(transfer)), rest))
        }
        2 => {
            let ((activity, confirmed, transfer), rest) = live_of(alloc, two, rest)?;
            let ending = SendState::Ending {
                activity,
                confirmed,
            };
            Ok(((ending, Some(transfer)), rest))
        }
        3 => {
            let ((activity, transfer), rest) = dropping_of(alloc, two, rest)?;
            Ok(((SendState::Dropping { activity }, Some(transfer)), rest))
        }
        _ => Err(Short::Left(octets.len())),
    }
}

/// A half that transfers an activity: its state, the activity, how many pieces are confirmed, and what is transferred.
fn put_live(
    out: &mut Octets,
    two: bool,
    stage: u8,
    activity: u32,
    confirmed: u32,
    transfer: &Option<TransferRecord>,
) -> Result<(), Memory>
    requires { IsGiven transfer.now }
    ensures { OnOk result (out.new ≡ out.old ++ (stage ∷ [])
        ++ (both a_number (both a_number (a_transfer two))).spelled (activity, (confirmed, transfer_in transfer.now))) }
{
    put_octet(out, stage)?;
    put_number(out, activity)?;
    put_number(out, confirmed)?;
    match transfer {
        Some(transfer) => put_transfer(out, two, transfer),
        None => unreachable!(),
    }
}

/// A half that transfers nothing.
fn put_idle(out: &mut Octets, two: bool, last: u32) -> Result<(), Memory>
    ensures { OnOk result (out.new ≡ out.old ++ (0 ∷ [])
        ++ (both a_number (both no_number (unused two))).spelled (last, (tt, all_zero))) }
{
    put_octet(out, 0)?;
    put_number(out, last)?;
    put_number(out, 0)?;
    put_unused(out, two)
}

/// A sending half: its state, and what stands of it.
#[tactic(auto, unfolding(crate::specs::Snapshots::sending_form))]
fn put_sending_half(
    out: &mut Octets,
    two: bool,
    sending: SendState,
    transfer: &Option<TransferRecord>,
) -> Result<(), Memory>
    requires { (sending_form two).Fits (sending, transfer.now) }
    ensures { OnOk result (out.new ≡ out.old ++ (sending_form two).spelled (sending, transfer.now)) }
{
    match sending {
        SendState::Idle { last } => put_idle(out, two, last),
        SendState::Sending {
            activity,
            confirmed,
        } => put_live(out, two, 1, activity, confirmed, transfer),
        SendState::Ending {
            activity,
            confirmed,
        } => put_live(out, two, 2, activity, confirmed, transfer),
        SendState::Dropping { activity } => put_live(out, two, 3, activity, 0, transfer),
    }
}

/// How many octets stand in place of a transfer where there is none.
fn unused_size(two: bool) -> u64
    ensures { result ≡ (if two then 28 else 24) }
{
    if two { 28 } else { 24 }
}

/// How many octets the fields of a transfer have, or what stands in place of it.
fn live_size(two: bool, transfer: &Option<TransferRecord>) -> u64
    ensures { result ≡ capped (length ((a_transfer two).spelled (transfer_in transfer.now))) }
{
    match transfer {
        Some(transfer) => transfer_size(two, transfer),
        None => unused_size(two),
    }
}

/// How many octets the fields of a sending half have.
fn sending_half_size(two: bool, sending: SendState, transfer: &Option<TransferRecord>) -> u64
    ensures { result ≡ capped (length ((sending_form two).spelled (sending, transfer.now))) }
{
    match sending {
        SendState::Idle { .. } => unused_size(two).saturating_add(9),
        SendState::Sending { .. } => live_size(two, transfer).saturating_add(9),
        SendState::Ending { .. } => live_size(two, transfer).saturating_add(9),
        SendState::Dropping { .. } => live_size(two, transfer).saturating_add(9),
    }
}

// ---- receiving halves

/// A receiving half: its state, the highest activity, and the pieces that came.
#[tactic(auto, unfolding(crate::specs::Snapshots::receiving_form, crate::specs::Snapshots::some_pieces))]
fn receiving_half_of(
    alloc: Global,
    octets: &[u8],
) -> Result<((u32, Last, Vec<Octets>), &[u8]), Short>
    ensures { Gives (λ x. ((x.0.0, (x.0.1, x.0.2.items)), x.1.now)) result (receiving_form.at octets.now) }
{
    let (standing, rest) = octet_of(octets)?;
    match standing {
        0 => {
            let (high, rest) = number_of(rest)?;
            let rest = no_number_of(rest)?;
            Ok(((high, Last::None, Vec::new(alloc)), rest))
        }
        1 => {
            let (high, rest) = number_of(rest)?;
            let (pieces, rest) = some_pieces_of(alloc, rest)?;
            let last = Last::Partial {
                activity: high,
                pieces: pieces.len() as u32,
            };
            Ok(((high, last, pieces), rest))
        }
        2 => {
            let (high, rest) = number_of(rest)?;
            let rest = no_number_of(rest)?;
            Ok(((high, Last::Done { activity: high }, Vec::new(alloc)), rest))
        }
        _ => Err(Short::Left(octets.len())),
    }
}

/// Pieces, of which there is one at least.
#[tactic(auto, unfolding(crate::specs::Snapshots::some_pieces))]
fn some_pieces_of(alloc: Global, octets: &[u8]) -> Result<(Vec<Octets>, &[u8]), Short>
    ensures exact { Gives (λ x. (x.0.items, x.1.now)) result (some_pieces.at octets.now) }
    ensures few { IfOk result (λ x. length x.0.items < 2 ^ 32) }
{
    let (pieces, rest) = list_of(alloc, false, octets)?;
    if pieces.is_empty() {
        return Err(Short::Left(octets.len()));
    }
    Ok((pieces, rest))
}

/// A receiving half: its state, the highest activity, and the pieces that came.
#[tactic(auto, unfolding(crate::specs::Snapshots::receiving_form, crate::specs::Snapshots::some_pieces))]
fn put_receiving_half(
    out: &mut Octets,
    high: u32,
    last: Last,
    pieces: &[Octets],
) -> Result<(), Memory>
    requires { receiving_form.Fits (high, (last, pieces.now)) }
    ensures { OnOk result (out.new ≡ out.old ++ receiving_form.spelled (high, (last, pieces.now))) }
{
    match last {
        Last::None => {
            put_octet(out, 0)?;
            put_number(out, high)?;
            put_number(out, 0)
        }
        Last::Partial { .. } => {
            put_octet(out, 1)?;
            put_number(out, high)?;
            put_list(out, false, pieces)
        }
        Last::Done { .. } => {
            put_octet(out, 2)?;
            put_number(out, high)?;
            put_number(out, 0)
        }
    }
}

/// How many octets the fields of a receiving half have.
#[tactic(auto, using(crate::proofs::Lengths::lengths), unfolding(crate::specs::Snapshots::receiving_form, crate::specs::Snapshots::some_pieces),)]
fn receiving_half_size(last: Last, pieces: &[Octets]) -> u64
    ensures { (high : ℕ) → result ≡ capped (length (receiving_form.spelled (high, (last, pieces.now)))) }
{
    match last {
        Last::None | Last::Done { .. } => 9,
        Last::Partial { .. } => list_size(false, pieces).saturating_add(5),
    }
}

// ---- lanes

/// The values of a lane and its generation.
#[tactic(auto, unfolding(crate::specs::Snapshots::some_values))]
fn values_of(octets: &[u8]) -> Result<((LaneValues, u64), &[u8]), Short>
    ensures { Gives (λ x. ((x.0.0.twa, (x.0.0.agreed, (x.0.0.checkpoint, (x.0.0.window, x.0.1)))), x.1.now)) result
        (some_values.at octets.now) }
{
    let (twa, rest) = truth_of(octets)?;
    let (agreed, rest) = truth_of(rest)?;
    let (checkpoint, rest) = number_of(rest)?;
    let (window, rest) = number_of(rest)?;
    let (generation, rest) = long_number_of(rest)?;
    let values = LaneValues {
        checkpoint,
        window,
        twa,
        agreed,
    };
    Ok(((values, generation), rest))
}

/// The values of a lane and its generation.
#[tactic(auto, unfolding(crate::specs::Snapshots::some_values))]
fn put_values(out: &mut Octets, values: &LaneValues, generation: u64) -> Result<(), Memory>
    ensures { OnOk result (out.new ≡ out.old ++ some_values.spelled
        (values.now.twa, (values.now.agreed, (values.now.checkpoint, (values.now.window, generation))))) }
{
    put_truth(out, values.twa)?;
    put_truth(out, values.agreed)?;
    put_number(out, values.checkpoint)?;
    put_number(out, values.window)?;
    put_long_number(out, generation)
}

/// A lane: its number, how two agents call it, its values, and its halves.
impl Field for LaneRecord {
    ghost at = { λ two octets. (lane_form two).at octets };

    ghost spelled = { λ two l. (lane_form two).spelled l };

    ghost Fits = { λ two l. (lane_form two).Fits l };

    #[tactic(auto, unfolding(crate::specs::Snapshots::lane_form))]
    fn read(alloc: Global, two: bool, octets: &[u8]) -> Result<(LaneRecord, &[u8]), Short> {
        let (number, rest) = number_of(octets)?;
        let ((role, peer, reference), rest) = lane_name_of(alloc, rest)?;
        let ((values, generation), rest) = values_of(rest)?;
        let ((sending, transfer), rest) = sending_half_of(alloc, two, rest)?;
        let ((high, last, pieces), rest) = receiving_half_of(alloc, rest)?;
        let lane = LaneRecord {
            number,
            role,
            peer,
            reference,
            values,
            generation,
            sending,
            transfer,
            high,
            last,
            pieces,
        };
        Ok((lane, rest))
    }

    #[tactic(auto, unfolding(crate::specs::Snapshots::lane_form))]
    fn put(&self, out: &mut Octets, two: bool) -> Result<(), Memory> {
        put_number(out, self.number)?;
        put_lane_name(out, self.role, &self.peer, &self.reference)?;
        put_values(out, &self.values, self.generation)?;
        put_sending_half(out, two, self.sending, &self.transfer)?;
        put_receiving_half(out, self.high, self.last, self.pieces.as_slice())
    }

    #[tactic(auto, using(crate::proofs::Lengths::lengths), unfolding(crate::specs::Snapshots::lane_form, crate::specs::Snapshots::some_values),)]
    fn size(&self, two: bool) -> u64 {
        lane_name_size(&self.peer, &self.reference)
            .saturating_add(sending_half_size(two, self.sending, &self.transfer))
            .saturating_add(receiving_half_size(self.last, self.pieces.as_slice()))
            .saturating_add(22)
    }
}
