//! The history of expansions, and the extension that says it.

ghost use Rattle.std.specs.Prelude.{◌≡◌, ◌<◌, ◌≤◌, ◌^◌, length, IfOk, None, OnOk, Some};
ghost use Rattle.std.specs.List.{flat_map, position};
ghost use Rattle.mta_ber.specs.Canon.{appended};
ghost use Rattle.mta_ber.specs.Times.{last_moment};
ghost use Rattle.mta_fields.specs.Expansions.{canonical_expansion};
ghost use Rattle.mta_fields.specs.ExtensionFields.{IsElement};
ghost use Rattle.mta_procedures.specs.Members.{expanded_history, expansion_of, history_field, history_octets};
ghost use Rattle.mta_procedures.specs.Members.{is_history_field, with_history};
ghost use Rattle.mta_procedures.specs.Situations.{situation};
ghost use Rattle.mta_tables.specs.Tables.{TablesValue};

use mta_ber::{Memory, Octets, Writer};
use mta_copies::{copied_fields, copied_history, copied_type};
use mta_envelope::EnvelopeFields;
use mta_fields::{Expansion, ExpansionFields, ExtField, ExtFields, ExtKind};
use mta_names::{Code, Row, constructed, put_around};
use mta_tables::MailList;
use std::alloc::Global;

/// The history of an envelope with the expansion of a list behind it.
pub fn expanded_history(
    alloc: Global,
    list: &MailList,
    envelope: &EnvelopeFields,
    moment: u64,
) -> Result<Row<Expansion>, Memory>
    requires { moment ≤ last_moment }
    ensures { IfOk result (λ r. (t : TablesValue)
        → r ≡ expanded_history (situation t 0 moment) list.now envelope.now) }
{
    let name = list.name.copy(alloc)?;
    let mut row = copied_history(alloc, envelope.history.as_slice())?;
    row.push(Expansion::from_fields(ExpansionFields { name, moment }))?;
    Ok(row)
}

/// The expansions one behind the other.
fn put_expansions(w: &mut Writer, history: &[Expansion]) -> Result<(), Memory>
    ensures { OnOk result (w.new ≡ appended w.old (flat_map canonical_expansion history.now)) }
{
    for expansion in history {
        expansion.write(w)?;
    }
    Ok(())
}

/// The history as it is written.
#[tactic(auto, unfolding(mta_procedures::specs::Members::history_octets))]
pub fn history_octets(alloc: Global, history: &[Expansion]) -> Result<Octets, Memory>
    ensures exact { IfOk result (λ o. o ≡ history_octets history.now) }
    ensures counted { IfOk result (λ o. length (flat_map canonical_expansion history.now) < 2 ^ 64) }
{
    let mut inside = Writer::new(alloc);
    put_expansions(&mut inside, history)?;
    let _count = inside.as_slice().len();
    let mut w = Writer::new(alloc);
    put_around(&mut w, constructed(0, 16), &inside)?;
    Ok(w.finish())
}

/// Whether the field is a history of expansions.
#[tactic(auto, using(crate::proofs::Fields::history_number))]
fn is_history_field(field: &ExtField) -> bool
    ensures { result ≡ is_history_field field.now }
{
    match &field.fields().kind {
        ExtKind::Standard(code) => code.number() == 26,
        ExtKind::Private(_) => false,
    }
}

fn history_place(fields: &[ExtField]) -> Option<usize>
    ensures { result ≡ position is_history_field fields.now }
{
    fields.iter().position(|field| is_history_field(field))
}

/// The field of a history that stands in no field yet, with no criticality.
#[tactic(auto, using(crate::proofs::Fields::field_steps))]
fn history_field(value: Octets) -> ExtField
    requires { IsElement value }
    ensures { result ≡ history_field value }
{
    ExtField::from_fields(ExtFields {
        kind: ExtKind::Standard(Code::new(26)),
        submission: false,
        transfer: false,
        delivery: false,
        value,
    })
}

/// The field with another value.
#[tactic(auto, using(crate::proofs::Fields::field_steps))]
fn with_value(alloc: Global, field: &ExtField, value: Octets) -> Result<ExtField, Memory>
    requires { IsElement value }
    ensures { IfOk result (λ f. f ≡ record field.now { value = value }) }
{
    let fields = field.fields();
    let kind = copied_type(alloc, &fields.kind)?;
    Ok(ExtField::from_fields(ExtFields {
        kind,
        submission: fields.submission,
        transfer: fields.transfer,
        delivery: fields.delivery,
        value,
    }))
}

/// The extensions with another value at a place where a history stands.
#[tactic(auto, using(crate::proofs::Fields::set_steps))]
fn with_value_at(
    alloc: Global,
    value: Octets,
    fields: &[ExtField],
    place: usize,
) -> Result<Row<ExtField>, Memory>
    requires value { IsElement value }
    requires place { position is_history_field fields.now ≡ Some place }
    ensures { IfOk result (λ r. r ≡ with_history value fields.now) }
{
    let changed = with_value(alloc, &fields[place], value)?;
    let mut row = copied_fields(alloc, fields)?.into_vec();
    row[place] = changed;
    Ok(Row::from_vec(row))
}

/// The extensions with a history behind them, where none stands.
#[tactic(auto, using(crate::proofs::Fields::add_history))]
fn with_field_behind(
    alloc: Global,
    value: Octets,
    fields: &[ExtField],
) -> Result<Row<ExtField>, Memory>
    requires value { IsElement value }
    requires none { position is_history_field fields.now ≡ None }
    ensures { IfOk result (λ r. r ≡ with_history value fields.now) }
{
    let mut row = copied_fields(alloc, fields)?;
    row.push(history_field(value))?;
    Ok(row)
}

/// The extensions with this history, in the field that had one, and else in a field behind the others.
pub fn with_history(
    alloc: Global,
    value: Octets,
    fields: &[ExtField],
) -> Result<Row<ExtField>, Memory>
    requires { IsElement value }
    ensures { IfOk result (λ r. r ≡ with_history value fields.now) }
{
    match history_place(fields) {
        Some(place) => with_value_at(alloc, value, fields, place),
        None => with_field_behind(alloc, value, fields),
    }
}
