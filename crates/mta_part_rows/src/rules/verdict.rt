//! Verdicts. The numbers are the arrival and the moment; then, of a message, the position of a recipient and the
//! length of the members' copy, of a probe that position, and of a report 1 where it can go back; and then the format,
//! where that is not 1.

use crate::rules::answer::Answer;
use mta_apdu::Apdu;
use mta_ber::LAST_MOMENT;
use mta_envelope::{Message, Probe};
use mta_report::Report;
use mta_rules::{verdict_message, verdict_probe, verdict_report};
use mta_tables::Tables;

/// The format that stands behind the other numbers.
fn format_of(last: &[u32]) -> u32 {
    match last.first() {
        Some(format) => *format,
        None => 1,
    }
}

fn on_message(tables: &Tables, message: &Message, numbers: &[u32]) -> Answer {
    let [arrival, moment, position, members, last @ ..] = numbers else {
        return Answer::NotAsked;
    };
    let arrival = u64::from(*arrival);
    let count = message.envelope.fields().recipients.len();
    if arrival > LAST_MOMENT || *position < 1 || *position as usize > count {
        return Answer::NotAsked;
    }
    let (members, moment) = (u64::from(*members), u64::from(*moment));
    let format = format_of(last);
    Answer::Verdict(verdict_message(format, tables, arrival, message, *position, members, moment))
}

fn on_probe(tables: &Tables, probe: &Probe, numbers: &[u32]) -> Answer {
    let [arrival, moment, position, last @ ..] = numbers else {
        return Answer::NotAsked;
    };
    let arrival = u64::from(*arrival);
    let count = probe.envelope.fields().recipients.len();
    if arrival > LAST_MOMENT || *position < 1 || *position as usize > count {
        return Answer::NotAsked;
    }
    let moment = u64::from(*moment);
    let format = format_of(last);
    Answer::Verdict(verdict_probe(format, tables, arrival, probe, *position, moment))
}

fn on_report(tables: &Tables, report: &Report, numbers: &[u32]) -> Answer {
    let [arrival, moment, back, last @ ..] = numbers else {
        return Answer::NotAsked;
    };
    let arrival = u64::from(*arrival);
    if arrival > LAST_MOMENT {
        return Answer::NotAsked;
    }
    let name = &report.fields().destination;
    let back = if *back == 1 { Some(name) } else { None };
    let moment = u64::from(*moment);
    let format = format_of(last);
    Answer::Verdict(verdict_report(format, tables, arrival, report, back, moment))
}

/// What is done under these tables.
pub fn verdict(tables: &Tables, apdu: &Apdu, numbers: &[u32]) -> Answer {
    match apdu {
        Apdu::Message(message) => on_message(tables, message, numbers),
        Apdu::Probe(probe) => on_probe(tables, probe, numbers),
        Apdu::Report(report) => on_report(tables, report, numbers),
    }
}
