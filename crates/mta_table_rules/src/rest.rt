//! Until when items rest, when verdicts on them change, and when their recipients may be relayed, from one reading.

ghost use Rattle.std.specs.Prelude.{◌≡◌, ◌≤◌, ◌<◌, ◌^◌, IfOk, length};
ghost use Rattle.std.specs.Option.{option_map};
ghost use Rattle.mta_apdu.specs.Apdus.{apdu_value};
ghost use Rattle.mta_ber.specs.Times.{last_moment};
ghost use Rattle.mta_idle_laws.specs.Next.{next_change};
ghost use Rattle.mta_idle_laws.specs.Spans.{relay_span};
ghost use Rattle.mta_state.specs.Readings.{IsCounted, IsReadingOf};
ghost use Rattle.mta_state.specs.Spans.{bounds_of};
ghost use Rattle.mta_table_rules.specs.Rests.{IsRestUnder, is_calling};

use crate::idle::{next_under, span_under};
use crate::reading::text_reads;
use crate::verdicts::verdict_under;
use mta_apdu::Apdu;
use mta_ber::Memory;
use mta_machine::Item;
use mta_state::{Reading, Rest, Span, calls_at_once, is_pending};
use mta_tables::Tables;
use std::alloc::Global;

/// Whether something is called for at once of a recipient, if pending.
fn calls(
    alloc: Global,
    format: u32,
    tables: &Tables,
    apdu: &Apdu<'_>,
    back: u64,
    item: &Item,
    recipient: u32,
    moment: u64,
) -> Result<bool, Memory>
    requires arrived { item.now.arrival ≤ last_moment }
    requires back { IsCounted apdu.now back }
    ensures { IfOk result (λ b. b ≡ is_calling format tables.now (apdu_value apdu.now) item.now recipient moment) }
{
    let pending = is_pending(item, recipient);
    if !pending {
        return Ok(false);
    }
    let arrival = item.arrival();
    let verdict = verdict_under(
        alloc, format, tables, apdu, back, arrival, recipient, moment,
    )?;
    Ok(calls_at_once(verdict))
}

/// What is found of an item whose APDU was read, by one verdict on each recipient who is pending.
#[tactic(auto, using(crate::proofs::Rests::resting_laws))]
pub fn rest_under(
    alloc: Global,
    format: u32,
    tables: &Tables,
    apdu: &Apdu<'_>,
    back: u64,
    item: &Item,
    moment: u64,
) -> Result<Option<Rest>, Memory>
    requires arrived { item.now.arrival ≤ last_moment }
    requires back { IsCounted apdu.now back }
    requires few { length item.now.statuses < 2 ^ 32 }
    ensures { IfOk result (IsRestUnder format tables.now (apdu_value apdu.now) item.now moment) }
{
    let Some(until) = next_under(format, tables, apdu, item.arrival(), moment) else {
        return Ok(None);
    };
    let count = item.statuses().len() as u32;
    let mut recipient = item.settled() as u32;
    while recipient < count {
        recipient += 1;
        let called = calls(alloc, format, tables, apdu, back, item, recipient, moment)?;
        if called {
            return Ok(None);
        }
    }
    let span = span_under(format, tables, apdu, item.arrival());
    Ok(Some(Rest { until, span }))
}

/// The next moment at which a verdict on recipients of an item may change; none once it has expired, or where its
/// octets are those of no APDU.
pub fn next_change(
    format: u32,
    tables: &Tables,
    item: &Item,
    reading: &Reading<'_>,
    moment: u64,
) -> Option<u64>
    requires arrived { item.now.arrival ≤ last_moment }
    requires reading { IsReadingOf item.now.octets reading.now }
    ensures { result ≡ next_change format tables.now.text item.now.octets item.now.arrival moment }
{
    text_reads(tables);
    let Some(apdu) = &reading.apdu else {
        return None;
    };
    next_under(format, tables, apdu, item.arrival(), moment)
}

/// When recipients of an item may be relayed; none where its octets are those of no APDU.
pub fn span(format: u32, tables: &Tables, item: &Item, reading: &Reading<'_>) -> Option<Span>
    requires arrived { item.now.arrival ≤ last_moment }
    requires reading { IsReadingOf item.now.octets reading.now }
    ensures { option_map bounds_of result ≡ relay_span format tables.now.text item.now.octets item.now.arrival }
{
    text_reads(tables);
    let Some(apdu) = &reading.apdu else {
        return None;
    };
    Some(span_under(format, tables, apdu, item.arrival()))
}
