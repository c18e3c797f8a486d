//! What the values of extensions say.

ghost use Rattle.std.specs.Prelude.{◌≡◌};
ghost use Rattle.mta_ber.specs.Element.{explicit};
ghost use Rattle.mta_ber.specs.Parts.{Reads};
ghost use Rattle.mta_ber.specs.Seen.{view};
ghost use Rattle.mta_envelope_extensions.specs.Topics.{standard_topic, topic_of, said_history, said_latest};
ghost use Rattle.mta_envelope_extensions.specs.Topics.{said_prohibited, said_in, value_said};

use crate::expansions::read_history;
use mta_ber::{Kind, Octets, ReadFault, View, bad, is_tag_of};
use mta_fields::{Expansion, ExtKind};
use mta_names::{Row, read_number};
use std::alloc::Global;

/// Which of the extensions that are read a type is.
#[derive(Clone, Copy, PartialEq, Eq)]
pub enum Topic {
    /// dl-expansion-history, 26.
    ExpansionHistory,
    /// latest-delivery-time, 5.
    LatestDelivery,
    /// dl-expansion-prohibited, 3.
    ExpansionProhibited,
    /// Any other, whose value is not read.
    Other,
}

/// What a value says.
#[derive(Drop)]
pub enum Said {
    /// The expansions so far, 1 to 512 of them, the first one first.
    History(Row<Expansion>),
    /// Until when the message may be delivered, in seconds from 1950-01-01 00:00:00 UTC, at most the last second of
    /// 2049.
    Latest(u64),
    /// Whether lists may not be expanded.
    Prohibited(bool),
    /// It is not read.
    Unread,
}

/// A value: its whole element, and what it says.
#[derive(Drop)]
pub struct ExtValue {
    pub octets: Octets,
    pub said: Said,
}

fn standard_topic(number: u32) -> Topic
    ensures { result ≡ standard_topic number }
{
    match number {
        26 => Topic::ExpansionHistory,
        5 => Topic::LatestDelivery,
        3 => Topic::ExpansionProhibited,
        _ => Topic::Other,
    }
}

/// Which of the extensions that are read a type is.
pub fn topic_of(kind: &ExtKind) -> Topic
    ensures { result ≡ topic_of kind.now }
{
    match kind {
        ExtKind::Standard(number) => standard_topic(number.number()),
        ExtKind::Private(_) => Topic::Other,
    }
}

fn read_said_history(alloc: Global, part: &View) -> Result<Said, ReadFault>
    ensures { Reads result (said_history (view part.now)) }
{
    if !is_tag_of(part.tag, 0, 16) {
        return bad(part.at, Kind::BadTag);
    }
    let expansions = read_history(alloc, part)?;
    Ok(Said::History(expansions))
}

fn read_said_latest(part: &View) -> Result<Said, ReadFault>
    ensures { Reads result (said_latest (view part.now)) }
{
    if !is_tag_of(part.tag, 0, 23) {
        return bad(part.at, Kind::BadTag);
    }
    let moment = part.utc()?;
    Ok(Said::Latest(moment))
}

fn read_said_prohibited(part: &View) -> Result<Said, ReadFault>
    ensures { Reads result (said_prohibited (view part.now)) }
{
    if !is_tag_of(part.tag, 0, 2) && !is_tag_of(part.tag, 0, 10) {
        return bad(part.at, Kind::BadTag);
    }
    let number = read_number(part, 0, 1)?;
    Ok(Said::Prohibited(number == 1))
}

fn read_said(alloc: Global, topic: Topic, part: &View) -> Result<Said, ReadFault>
    ensures { Reads result (said_in topic (view part.now)) }
{
    match topic {
        Topic::ExpansionHistory => read_said_history(alloc, part),
        Topic::LatestDelivery => read_said_latest(part),
        Topic::ExpansionProhibited => read_said_prohibited(part),
        Topic::Other => Ok(Said::Unread),
    }
}

fn read_value_inside(alloc: Global, topic: Topic, part: &View) -> Result<ExtValue, ReadFault>
    ensures { Reads result (value_said topic (view part.now)) }
{
    let said = read_said(alloc, topic, part)?;
    let octets = Octets::from_slice(alloc, part.octets)?;
    Ok(ExtValue { octets, said })
}

/// The value inside an explicit tag.
pub fn read_value(alloc: Global, topic: Topic, part: &View) -> Result<ExtValue, ReadFault>
    ensures { Reads result (explicit (value_said topic) (view part.now)) }
{
    let inside = part.inner()?;
    let value = read_value_inside(alloc, topic, &inside)?;
    inside.alone()?;
    Ok(value)
}
