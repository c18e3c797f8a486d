//! Writing units in their canonical octets.

ghost use Rattle.std.specs.Prelude.{◌≡◌, ◌≤◌, ◌<◌, ◌-◌, ◌^◌, drop, ◌++◌, ◌∷◌, [], length, OnOk, IfOk};
ghost use Rattle.mta_ber.specs.Canon.{appended, constructed, primitive};
ghost use Rattle.mta_ber.specs.Contents.{canon_int};
ghost use Rattle.mta_units.specs.Kind.{kind_number};
ghost use Rattle.mta_units.specs.Canon.{kind_of, number_octets, open_octets, body_octets, unit_octets};
ghost use Rattle.mta_units.specs.Canon.{IsWritable, HoldsReferences, HasReferences};

use crate::kind::UnitKind;
use crate::unit::{OpenUnit, Unit};
use mta_ber::{Memory, Octets, Tag, Writer, put_int};
use mta_rtse as rtse;
use std::alloc::Global;

fn universal(constructed: bool, number: u32) -> Tag
    ensures { result ≡ record { class = 0; constructed = constructed; number = number } }
{
    Tag {
        class: 0,
        constructed,
        number,
    }
}

fn put_number(w: &mut Writer, number: u32) -> Result<(), Memory>
    ensures { OnOk result (w.new ≡ appended w.old (number_octets number)) }
{
    w.put_raw(&number.to_be_bytes())
}

fn put_pair(w: &mut Writer, first: u32, second: u32) -> Result<(), Memory>
    ensures { OnOk result (w.new ≡ appended w.old (number_octets first ++ number_octets second)) }
{
    put_number(w, first)?;
    put_number(w, second)
}

fn put_exception(w: &mut Writer, kind: u8, at: u32) -> Result<(), Memory>
    ensures { OnOk result (w.new ≡ appended w.old (kind ∷ number_octets at)) }
{
    w.put_raw(&[kind])?;
    put_number(w, at)
}

/// A name, a reference and RTORQ, one behind the other.
#[tactic(auto, unfolding(crate::specs::Canon::open_octets))]
fn put_open(w: &mut Writer, opening: &OpenUnit) -> Result<(), Memory>
    ensures exact { OnOk result (w.new ≡ appended w.old (open_octets opening.now)) }
    ensures fits { OnOk result (HoldsReferences opening.now) }
{
    w.put(universal(false, 22), opening.name.as_slice())?;
    rtse::put_reference(w, universal(true, 16), &opening.reference)?;
    rtse::put_request(
        w,
        opening.checkpoint,
        opening.window,
        opening.twa,
        &opening.request,
    )
}

fn kind_of_unit(unit: &Unit) -> UnitKind
    ensures { result ≡ kind_of unit.now }
{
    match unit {
        Unit::Open(_) => UnitKind::Open,
        Unit::Accept { .. } => UnitKind::Accept,
        Unit::Reject { .. } => UnitKind::Reject,
        Unit::Start { .. } => UnitKind::Start,
        Unit::Piece(_) => UnitKind::Piece,
        Unit::Sync { .. } => UnitKind::Sync,
        Unit::SyncAck { .. } => UnitKind::SyncAck,
        Unit::End { .. } => UnitKind::End,
        Unit::EndAck { .. } => UnitKind::EndAck,
        Unit::Resume { .. } => UnitKind::Resume,
        Unit::ResumeAck { .. } => UnitKind::ResumeAck,
        Unit::Discard { .. } => UnitKind::Discard,
        Unit::DiscardAck { .. } => UnitKind::DiscardAck,
        Unit::Please { .. } => UnitKind::Please,
        Unit::Give => UnitKind::Give,
        Unit::Exception { .. } => UnitKind::Exception,
        Unit::Abort { .. } => UnitKind::Abort,
        Unit::Close => UnitKind::Close,
        Unit::CloseAck => UnitKind::CloseAck,
    }
}

fn put_body(w: &mut Writer, unit: &Unit) -> Result<(), Memory>
    ensures exact { OnOk result (w.new ≡ appended w.old (body_octets unit.now)) }
    ensures fits { OnOk result (HasReferences unit.now) }
{
    match unit {
        Unit::Open(opening) => put_open(w, opening),
        Unit::Accept {
            checkpoint,
            window,
            answer,
        } => rtse::put_answer(w, *checkpoint, *window, answer),
        Unit::Reject { reason } => rtse::put_refusal(w, *reason),
        Unit::Start { activity }
        | Unit::End { activity }
        | Unit::EndAck { activity }
        | Unit::Discard { activity }
        | Unit::DiscardAck { activity } => put_number(w, *activity),
        Unit::Piece(octets) => w.put(universal(false, 4), octets.as_slice()),
        Unit::Sync { number } | Unit::SyncAck { number } => put_number(w, *number),
        Unit::Resume { activity, number } | Unit::ResumeAck { activity, number } => {
            put_pair(w, *activity, *number)
        }
        Unit::Please { priority } => put_int(w, universal(false, 2), *priority as i64),
        Unit::Give | Unit::Close | Unit::CloseAck => Ok(()),
        Unit::Exception { kind, at } => put_exception(w, *kind, *at),
        Unit::Abort { reason } => rtse::put_abort(w, *reason),
    }
}

/// Writes the length of what stands behind the first five octets into the first four.
fn put_length(octets: &mut Vec<u8>)
    requires some { 5 ≤ length octets.old.items }
    requires fits { length octets.old.items < 2 ^ 32 }
    ensures { octets.new.items ≡ number_octets (length octets.old.items - 5) ++ drop 4 octets.old.items }
{
    let size = (octets.len() - 5) as u32;
    let digits = size.to_be_bytes();
    octets[0] = digits[0];
    octets[1] = digits[1];
    octets[2] = digits[2];
    octets[3] = digits[3];
}

/// The canonical octets of a unit.
#[tactic(auto, unfolding(crate::specs::Canon::unit_octets))]
pub fn write_unit(alloc: Global, unit: &Unit) -> Result<Octets, Memory>
    requires { IsWritable unit.now }
    ensures { IfOk result (λ o. o ≡ unit_octets unit.now) }
{
    let mut w = Writer::new(alloc);
    w.put_raw(&[0, 0, 0, 0, kind_of_unit(unit).number()])?;
    put_body(&mut w, unit)?;
    let mut octets = w.finish().into_vec();
    put_length(&mut octets);
    Ok(Octets::from_vec(octets))
}
