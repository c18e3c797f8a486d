//! Where recipients are delivered to, with the delivery report, from one reading.

ghost use Rattle.std.specs.Prelude.{◌≡◌, ◌≤◌, IfOk};
ghost use Rattle.std.specs.Option.{option_map};
ghost use Rattle.mta_ber.specs.Times.{last_moment};
ghost use Rattle.mta_apdu.specs.Apdus.{apdu_value};
ghost use Rattle.mta_procedures.specs.Reports.{delivery_report};
ghost use Rattle.mta_machine.specs.Machine.{own_item};
ghost use Rattle.mta_machine.specs.Rules.{report_on, verdict_under};
ghost use Rattle.mta_state.specs.Asked.{Delivers, IsDeliveryOf};
ghost use Rattle.mta_state.specs.Readings.{IsCounted, IsReadingOf};

use crate::reading::text_reads;
use crate::reports::{delivery_report_in, report_item};
use crate::verdicts::verdict_under;
use mta_apdu::Apdu;
use mta_ber::Memory;
use mta_machine::Item;
use mta_procedures::Verdict;
use mta_state::{Delivery, Reading};
use mta_tables::Tables;
use std::alloc::Global;

/// The delivery of an APDU that was read to a recipient, with the delivery report; none where the verdict is another.
fn delivery_under(
    alloc: Global,
    format: u32,
    tables: &Tables,
    number: u64,
    arrival: u64,
    apdu: &Apdu<'_>,
    back: u64,
    recipient: u32,
    moment: u64,
) -> Result<Option<Delivery>, Memory>
    requires arrived { arrival ≤ last_moment }
    requires back { IsCounted apdu.now back }
    requires fits { moment ≤ last_moment }
    ensures { let v = apdu_value apdu.now in
        let made = report_on (λ e x. delivery_report tables.now number arrival e x moment) recipient v in
        IfOk result (Delivers (verdict_under format tables.now v arrival recipient moment)
        (option_map (own_item moment) made)) }
{
    let verdict = verdict_under(
        alloc, format, tables, apdu, back, arrival, recipient, moment,
    )?;
    let Some(Verdict::Deliver(place)) = verdict else {
        return Ok(None);
    };
    let made = delivery_report_in(alloc, tables, number, arrival, apdu, recipient, moment)?;
    let report = report_item(alloc, made, moment)?;
    Ok(Some(Delivery { place, report }))
}

/// Where a recipient of an item is delivered to at a moment, with the item that is the delivery report, made at that
/// moment as the item of a number; none where the verdict is another.
pub fn delivery(
    alloc: Global,
    format: u32,
    tables: &Tables,
    number: u64,
    item: &Item,
    reading: &Reading<'_>,
    recipient: u32,
    moment: u64,
) -> Result<Option<Delivery>, Memory>
    requires arrived { item.now.arrival ≤ last_moment }
    requires reading { IsReadingOf item.now.octets reading.now }
    requires fits { moment ≤ last_moment }
    ensures { IfOk result (IsDeliveryOf format tables.now.text number item.now recipient moment) }
{
    text_reads(tables);
    let arrival = item.arrival();
    let Some(apdu) = &reading.apdu else {
        return Ok(None);
    };
    delivery_under(
        alloc,
        format,
        tables,
        number,
        arrival,
        apdu,
        reading.back,
        recipient,
        moment,
    )
}
