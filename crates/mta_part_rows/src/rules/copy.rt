//! Copies for peers and for members, and reports that are made. The numbers of a copy for a peer are the arrival, the
//! moment and the chosen positions.

ghost use Rattle.std.specs.Prelude.{IfSome};
ghost use Rattle.mta_report_recipient.specs.Values.{IsOutcome};

use crate::rules::answer::Answer;
use mta_apdu::Apdu;
use mta_ber::{LAST_MOMENT, Memory};
use mta_copies::{outgoing_head, outgoing_message, outgoing_probe, outgoing_report};
use mta_envelope::{Envelope, Message, Probe};
use mta_lists::expand;
use mta_names::Code;
use mta_report::Report;
use mta_report_recipient::{Moment, Outcome};
use mta_rules::make_report;
use mta_tables::Tables;
use std::alloc::Global;

/// How long a trace and a history may grow.
const FULL: usize = 512;

/// The largest code.
const LAST_CODE: u32 = 32_767;

fn of_message(
    alloc: Global,
    tables: &Tables,
    message: &Message,
    numbers: &[u32],
) -> Result<Answer, Memory> {
    let [arrival, moment, chosen @ ..] = numbers else {
        return Ok(Answer::NotAsked);
    };
    let (arrival, moment) = (u64::from(*arrival), u64::from(*moment));
    let count = message.envelope.fields().trace.len();
    if count >= FULL || arrival > LAST_MOMENT || moment > LAST_MOMENT {
        return Ok(Answer::NotAsked);
    }
    let octets = outgoing_message(alloc, tables, arrival, message, chosen, moment)?;
    Ok(Answer::Octets(octets))
}

fn of_probe(
    alloc: Global,
    tables: &Tables,
    probe: &Probe,
    numbers: &[u32],
) -> Result<Answer, Memory> {
    let [arrival, moment, chosen @ ..] = numbers else {
        return Ok(Answer::NotAsked);
    };
    let (arrival, moment) = (u64::from(*arrival), u64::from(*moment));
    let count = probe.envelope.fields().trace.len();
    if count >= FULL || arrival > LAST_MOMENT || moment > LAST_MOMENT {
        return Ok(Answer::NotAsked);
    }
    let octets = outgoing_probe(alloc, tables, arrival, probe, chosen, moment)?;
    Ok(Answer::Octets(octets))
}

fn of_report(
    alloc: Global,
    tables: &Tables,
    report: &Report,
    numbers: &[u32],
) -> Result<Answer, Memory> {
    let [arrival, moment] = numbers else {
        return Ok(Answer::NotAsked);
    };
    let arrival = u64::from(*arrival);
    if report.fields().trace.len() >= FULL || arrival > LAST_MOMENT {
        return Ok(Answer::NotAsked);
    }
    let octets = outgoing_report(alloc, tables, arrival, report, u64::from(*moment))?;
    Ok(Answer::Octets(octets))
}

/// The copy for a peer.
pub fn copy(
    alloc: Global,
    tables: &Tables,
    apdu: &Apdu,
    numbers: &[u32],
) -> Result<Answer, Memory> {
    match apdu {
        Apdu::Message(message) => of_message(alloc, tables, message, numbers),
        Apdu::Probe(probe) => of_probe(alloc, tables, probe, numbers),
        Apdu::Report(report) => of_report(alloc, tables, report, numbers),
    }
}

fn head_of(
    alloc: Global,
    tables: &Tables,
    message: &Message,
    numbers: &[u32],
) -> Result<Answer, Memory> {
    let [arrival, moment, chosen @ ..] = numbers else {
        return Ok(Answer::NotAsked);
    };
    let (arrival, moment) = (u64::from(*arrival), u64::from(*moment));
    let count = message.envelope.fields().trace.len();
    if count >= FULL || arrival > LAST_MOMENT || moment > LAST_MOMENT {
        return Ok(Answer::NotAsked);
    }
    let octets = outgoing_head(alloc, tables, arrival, message, chosen, moment)?;
    Ok(Answer::Octets(octets))
}

/// What stands in front of the content of a message's copy for a peer.
pub fn head(
    alloc: Global,
    tables: &Tables,
    apdu: &Apdu,
    numbers: &[u32],
) -> Result<Answer, Memory> {
    match apdu {
        Apdu::Message(message) => head_of(alloc, tables, message, numbers),
        Apdu::Probe(_) | Apdu::Report(_) => Ok(Answer::NotAsked),
    }
}

/// The outcome that numbers say: 0, a moment and a type of user; or 1, a reason, and a diagnostic where there is one.
fn outcome_of(numbers: &[u32]) -> Option<Outcome>
    ensures { IfSome result IsOutcome }
{
    match numbers {
        [0, moment, user] => {
            let moment = u64::from(*moment);
            if moment > LAST_MOMENT || *user > LAST_CODE {
                return None;
            }
            Some(Outcome::Delivery {
                moment: Moment::new(moment),
                user: Code::new(*user),
            })
        }
        [1, reason] => {
            if *reason > LAST_CODE {
                return None;
            }
            Some(Outcome::NonDelivery {
                reason: Code::new(*reason),
                diagnostic: None,
            })
        }
        [1, reason, diagnostic] => {
            if *reason > LAST_CODE || *diagnostic > LAST_CODE {
                return None;
            }
            Some(Outcome::NonDelivery {
                reason: Code::new(*reason),
                diagnostic: Some(Code::new(*diagnostic)),
            })
        }
        _ => None,
    }
}

/// The octets of an APDU, which is let go.
fn written(alloc: Global, apdu: Apdu) -> Result<Answer, Memory> {
    let octets = apdu.write(alloc);
    apdu.discard();
    Ok(Answer::Octets(octets?))
}

fn report_of(
    alloc: Global,
    tables: &Tables,
    envelope: &Envelope,
    numbers: &[u32],
) -> Result<Answer, Memory> {
    let [arrival, number, position, outcome @ ..] = numbers else {
        return Ok(Answer::NotAsked);
    };
    let arrival = u64::from(*arrival);
    let count = envelope.fields().recipients.len();
    if arrival > LAST_MOMENT || *position < 1 || *position as usize > count {
        return Ok(Answer::NotAsked);
    }
    let Some(outcome) = outcome_of(outcome) else {
        return Ok(Answer::NotAsked);
    };
    let number = u64::from(*number);
    match make_report(alloc, tables, number, arrival, envelope, *position, outcome)? {
        None => Ok(Answer::None),
        Some(report) => written(alloc, Apdu::Report(report)),
    }
}

/// The report that is made. The numbers are the arrival, the number of its item, the position of the recipient, and
/// the outcome.
pub fn made(
    alloc: Global,
    tables: &Tables,
    apdu: &Apdu,
    numbers: &[u32],
) -> Result<Answer, Memory> {
    match apdu {
        Apdu::Message(message) => report_of(alloc, tables, &message.envelope, numbers),
        Apdu::Probe(probe) => report_of(alloc, tables, &probe.envelope, numbers),
        Apdu::Report(_) => Ok(Answer::NotAsked),
    }
}

fn expanded(
    alloc: Global,
    tables: &Tables,
    message: &Message,
    numbers: &[u32],
) -> Result<Answer, Memory> {
    let [arrival, moment, position, list] = numbers else {
        return Ok(Answer::NotAsked);
    };
    let (arrival, moment) = (u64::from(*arrival), u64::from(*moment));
    let fields = message.envelope.fields();
    if arrival > LAST_MOMENT || moment > LAST_MOMENT || *position < 1 {
        return Ok(Answer::NotAsked);
    }
    if *position as usize > fields.recipients.len() || *list as usize >= tables.lists().len() {
        return Ok(Answer::NotAsked);
    }
    if fields.trace.len() >= FULL || fields.history.len() >= FULL {
        return Ok(Answer::NotAsked);
    }
    match expand(alloc, tables, *list, arrival, message, *position, moment)? {
        None => Ok(Answer::None),
        Some(copy) => written(alloc, Apdu::Message(copy)),
    }
}

/// The copy for the members of a list. The numbers are the arrival, the moment, the position of the recipient, and the
/// place of the list.
pub fn expansion(
    alloc: Global,
    tables: &Tables,
    apdu: &Apdu,
    numbers: &[u32],
) -> Result<Answer, Memory> {
    match apdu {
        Apdu::Message(message) => expanded(alloc, tables, message, numbers),
        Apdu::Probe(_) | Apdu::Report(_) => Ok(Answer::NotAsked),
    }
}
