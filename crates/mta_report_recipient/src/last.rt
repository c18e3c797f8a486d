//! The last trace of a recipient.

ghost use Rattle.std.specs.Prelude.{◌≡◌, OnOk, IfOk, OnErr, IsTrue, Ok, ℕ, unwrap_or, List, []};
ghost use Rattle.mta_ber.specs.Canon.{appended, optional};
ghost use Rattle.mta_ber.specs.Parts.{Leaves, Reads};
ghost use Rattle.mta_ber.specs.Seen.{view};
ghost use Rattle.std.specs.Prelude.{IfSome};
ghost use Rattle.mta_report_recipient.specs.Values.{IsMoment};
ghost use Rattle.mta_report_recipient.specs.LastTraces.{last_part_of, last_held, last_part_in, last_step};
ghost use Rattle.mta_report_recipient.specs.LastTraces.{last_from, last_in, last_content, canonical_last};

use crate::outcome::{Outcome, put_outcome, read_outcome};
use mta_ber::{
    Components, Kind, Memory, Octets, ReadFault, Tag, View, Writer, bad, is_constructed_tag,
    is_tag_of, put_utc, take_parts, take_required,
};
use mta_names::{constructed, primitive, put_around, put_raw_if};
use std::alloc::Global;

/// The last trace of a recipient (X.411, LastTraceInformation).
#[derive(Drop)]
pub struct LastTrace {
    pub arrival: u64,
    pub converted: Option<Octets>,
    pub outcome: Outcome,
}

/// The components.
#[derive(Clone, Copy)]
pub enum LastPart {
    Arrival,
    ReportType,
    Converted,
}

/// The components so far.
#[derive(Drop)]
pub struct LastParts {
    pub arrival: Option<u64>,
    pub outcome: Option<Outcome>,
    pub converted: Option<Octets>,
}

fn part_of(tag: Tag) -> Option<LastPart>
    ensures { result ≡ last_part_of tag }
{
    if is_tag_of(tag, 2, 0) {
        Some(LastPart::Arrival)
    } else if is_constructed_tag(tag, 2, 1) {
        Some(LastPart::ReportType)
    } else if is_tag_of(tag, 1, 5) {
        Some(LastPart::Converted)
    } else {
        None
    }
}

impl LastParts {
    /// Whether a component is there already.
    fn is_held(&self, place: LastPart) -> bool
        ensures { result ≡ last_held place self.now }
    {
        match place {
            LastPart::Arrival => self.arrival.is_some(),
            LastPart::ReportType => self.outcome.is_some(),
            LastPart::Converted => self.converted.is_some(),
        }
    }

    fn put(&mut self, alloc: Global, place: LastPart, part: &View) -> Result<(), ReadFault>
        ensures { Leaves result self.new (last_part_in place self.old (view part.now)) }
    {
        match place {
            LastPart::Arrival => self.arrival = Some(part.utc()?),
            LastPart::ReportType => self.outcome = Some(read_outcome(alloc, part)?),
            LastPart::Converted => self.converted = Some(Octets::from_slice(alloc, part.octets)?),
        }
        Ok(())
    }
}

impl Components for LastParts {
    ghost step = { last_step };

    #[tactic(auto, unfolding(crate::specs::LastTraces::last_step))]
    fn take(&mut self, alloc: Global, part: &View) -> Result<(), ReadFault> {
        match part_of(part.tag) {
            None => bad(part.at, Kind::BadTag),
            Some(place) => {
                if self.is_held(place) {
                    return bad(part.at, Kind::Twice);
                }
                self.put(alloc, place, part)
            }
        }
    }
}

fn finished(parts: LastParts, at: u32) -> Result<LastTrace, ReadFault>
    ensures { Reads result (last_from parts at) }
{
    let LastParts {
        arrival,
        outcome,
        converted,
    } = parts;
    let arrival = take_required(arrival, at)?;
    let outcome = take_required(outcome, at)?;
    Ok(LastTrace {
        arrival,
        converted,
        outcome,
    })
}

/// A last trace, its components in any order.
#[tactic(auto, unfolding(crate::specs::LastTraces::last_in))]
pub fn read_last(alloc: Global, whole: &View) -> Result<LastTrace, ReadFault>
    ensures { Reads result (last_in (view whole.now)) }
{
    if !whole.tag.constructed {
        return bad(whole.at, Kind::BadTag);
    }
    let mut parts = LastParts {
        arrival: None,
        outcome: None,
        converted: None,
    };
    take_parts(alloc, whole, &mut parts)?;
    finished(parts, whole.at)
}

/// Appends a last trace under `[3]`.
#[tactic(auto, unfolding(crate::specs::LastTraces::canonical_last))]
pub fn put_last(
    w: &mut Writer,
    arrival: u64,
    converted: &Option<Octets>,
    outcome: &Outcome,
) -> Result<(), Memory>
    requires { IsMoment arrival }
    ensures ok { OnOk result (w.new ≡ appended w.old (canonical_last arrival converted.now outcome.now)) }
    ensures err { OnErr result (w.new ≡ w.old) }
{
    let mut inside = Writer::new(w.alloc());
    put_raw_if(&mut inside, converted)?;
    put_utc(&mut inside, primitive(2, 0), arrival)?;
    put_outcome(&mut inside, outcome)?;
    put_around(w, constructed(2, 3), &inside)
}
