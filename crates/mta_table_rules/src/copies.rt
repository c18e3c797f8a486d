//! The copies of items that go to peers.

ghost use Rattle.std.specs.Prelude.{◌≡◌, ◌≤◌, ◌<◌, ◌^◌, ℕ, IfOk, Some, length};
ghost use Rattle.mta_ber.specs.Times.{last_moment};
ghost use Rattle.mta_envelope.specs.Contents.{octets_of};
ghost use Rattle.mta_envelope.specs.Messages.{message_value};
ghost use Rattle.mta_apdu.specs.Apdus.{apdu_value};
ghost use Rattle.mta_apdu.specs.Apdus as apdus;
ghost use Rattle.mta_machine.specs.Rules.{copy_under, outgoing_copy, verdict_of, verdict_under};
ghost use Rattle.mta_state.specs.Asked.{Relays};
ghost use Rattle.mta_state.specs.Readings.{IsCut, IsReadingOf};
ghost use Rattle.mta_table_rules.specs.Copied.{HasCopy, IsCutAt, IsCutIn};

use crate::reading::text_reads;
use mta_apdu::Apdu;
use mta_ber::{Memory, Octets};
use mta_copies::{outgoing_head, outgoing_probe, outgoing_report};
use mta_envelope::{Message, Place, Probe};
use mta_machine::Item;
use mta_records::Outgoing;
use mta_report::Report;
use mta_state::Reading;
use mta_tables::Tables;
use std::alloc::Global;
use std::sync::Arc;

/// Octets among which are those of a content, from `from` up to `to`.
#[derive(Drop)]
struct Rest {
    octets: Arc<Octets, Global>,
    from: u32,
    to: u32,
}

/// The content of a message in memory of its own.
fn own_content(alloc: Global, message: &Message<'_>) -> Result<Rest, Memory>
    requires { length (octets_of message.now.content) < 2 ^ 32 }
    ensures { IfOk result (λ r. IsCut r.octets.value (octets_of message.now.content) r.from r.to) }
{
    let content = message.content.as_slice();
    let to = content.len() as u32;
    let copied = Octets::from_slice(alloc, content)?;
    let octets = Arc::new(alloc, copied)?;
    Ok(Rest {
        octets,
        from: 0,
        to,
    })
}

/// The content of a message where it lies in the octets of its item, which are shared.
fn shared_content(item: &Item, place: Place) -> Result<Rest, Memory>
    ensures octets { IfOk result (λ r. r.octets.value ≡ item.now.octets) }
    ensures from { IfOk result (λ r. r.from ≡ place.from) }
    ensures to { IfOk result (λ r. r.to ≡ place.to) }
{
    let octets = item.shared()?;
    Ok(Rest {
        octets,
        from: place.from,
        to: place.to,
    })
}

/// The content of a message: shared where it is lent of the octets of the item.
fn content_of(alloc: Global, item: &Item, message: &Message<'_>) -> Result<Rest, Memory>
    requires place { IsCutAt item.now.octets (octets_of message.now.content) message.now.place }
    requires few { length (octets_of message.now.content) < 2 ^ 32 }
    ensures { IfOk result (λ r. IsCut r.octets.value (octets_of message.now.content) r.from r.to) }
{
    match message.place {
        Some(place) => shared_content(item, place),
        None => own_content(alloc, message),
    }
}

/// The copy of a message: a head of its own, and the content behind it.
fn of_message(
    alloc: Global,
    tables: &Tables,
    activity: u32,
    item: &Item,
    message: &Message<'_>,
    recipients: &[u32],
    moment: u64,
) -> Result<Outgoing, Memory>
    requires place { IsCutAt item.now.octets (octets_of message.now.content) message.now.place }
    requires copy { HasCopy tables.now (apdus.message (message_value message.now)) item.now.arrival recipients.now
        moment }
    requires arrived { item.now.arrival ≤ last_moment }
    requires fits { moment ≤ last_moment }
    ensures { let v = apdus.message (message_value message.now) in IfOk result (λ out. out
        ≡ record { activity = activity; octets = copy_under tables.now v item.now.arrival recipients.now moment }) }
{
    let arrival = item.arrival();
    let head = outgoing_head(alloc, tables, arrival, message, recipients, moment)?;
    let Rest { octets, from, to } = content_of(alloc, item, message)?;
    Ok(Outgoing::new(activity, head, octets, from, to))
}

/// The activity of octets that are not shared.
fn of_octets(alloc: Global, activity: u32, octets: Octets) -> Result<Outgoing, Memory>
    requires { length octets < 2 ^ 32 }
    ensures { IfOk result (λ out. out ≡ record { activity = activity; octets = octets }) }
{
    let nothing = Arc::new(alloc, Octets::new(alloc))?;
    Ok(Outgoing::new(activity, octets, nothing, 0, 0))
}

fn of_probe(
    alloc: Global,
    tables: &Tables,
    activity: u32,
    arrival: u64,
    probe: &Probe,
    recipients: &[u32],
    moment: u64,
) -> Result<Outgoing, Memory>
    requires copy { HasCopy tables.now (apdus.probe probe.now.envelope) arrival recipients.now moment }
    requires arrived { arrival ≤ last_moment }
    requires fits { moment ≤ last_moment }
    ensures { let v = apdus.probe probe.now.envelope in IfOk result (λ out. out
        ≡ record { activity = activity; octets = copy_under tables.now v arrival recipients.now moment }) }
{
    let octets = outgoing_probe(alloc, tables, arrival, probe, recipients, moment)?;
    of_octets(alloc, activity, octets)
}

/// A report has one recipient.
fn of_report(
    alloc: Global,
    tables: &Tables,
    activity: u32,
    arrival: u64,
    report: &Report,
    recipients: &[u32],
    moment: u64,
) -> Result<Outgoing, Memory>
    requires copy { HasCopy tables.now (apdus.report report.now) arrival recipients.now moment }
    requires arrived { arrival ≤ last_moment }
    ensures { let v = apdus.report report.now in IfOk result (λ out. out
        ≡ record { activity = activity; octets = copy_under tables.now v arrival recipients.now moment }) }
{
    let octets = outgoing_report(alloc, tables, arrival, report, moment)?;
    of_octets(alloc, activity, octets)
}

fn copy_under(
    alloc: Global,
    tables: &Tables,
    activity: u32,
    item: &Item,
    apdu: &Apdu<'_>,
    recipients: &[u32],
    moment: u64,
) -> Result<Outgoing, Memory>
    requires place { IsCutIn item.now.octets apdu.now }
    requires copy { HasCopy tables.now (apdu_value apdu.now) item.now.arrival recipients.now moment }
    requires arrived { item.now.arrival ≤ last_moment }
    requires fits { moment ≤ last_moment }
    ensures { let v = apdu_value apdu.now in IfOk result (λ out. out
        ≡ record { activity = activity; octets = copy_under tables.now v item.now.arrival recipients.now moment }) }
{
    match apdu {
        Apdu::Message(message) => {
            of_message(alloc, tables, activity, item, message, recipients, moment)
        }
        Apdu::Probe(probe) => {
            let arrival = item.arrival();
            of_probe(alloc, tables, activity, arrival, probe, recipients, moment)
        }
        Apdu::Report(report) => {
            let arrival = item.arrival();
            of_report(alloc, tables, activity, arrival, report, recipients, moment)
        }
    }
}

/// The copy of an item for recipients of whom one is relayed, as an activity of this number.
pub fn outgoing_copy(
    alloc: Global,
    tables: &Tables,
    activity: u32,
    item: &Item,
    reading: &Reading<'_>,
    recipients: &[u32],
    recipient: u32,
    moment: u64,
) -> Result<Outgoing, Memory>
    requires arrived { item.now.arrival ≤ last_moment }
    requires reading { IsReadingOf item.now.octets reading.now }
    requires fits { moment ≤ last_moment }
    requires relayed { (format : ℕ)
        × Relays (verdict_of format tables.now.text item.now.octets item.now.arrival recipient moment) }
    ensures copy { IfOk result (λ out. Some out.octets
        ≡ outgoing_copy tables.now.text item.now.octets item.now.arrival recipients.now moment) }
    ensures activity { IfOk result (λ out. out.activity ≡ activity) }
{
    text_reads(tables);
    let Some(apdu) = &reading.apdu else {
        unreachable!();
    };
    copy_under(alloc, tables, activity, item, apdu, recipients, moment)
}
