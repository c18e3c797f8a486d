//! Non-deliveries that are reported.

ghost use Rattle.std.specs.Prelude.{◌≡◌, OnOk, OnErr};
ghost use Rattle.mta_ber.specs.Canon.{appended, optional};
ghost use Rattle.mta_ber.specs.Parts.{Leaves, Reads};
ghost use Rattle.mta_ber.specs.Seen.{view};
ghost use Rattle.mta_report_recipient.specs.Failures.{failure_part_of, failure_held, failure_part_in};
ghost use Rattle.mta_report_recipient.specs.Failures.{failure_step, failure_from, failure_in, canonical_diagnostic};
ghost use Rattle.mta_report_recipient.specs.Failures.{canonical_failure};

use crate::outcome::Outcome;
use mta_ber::{
    Components, Kind, Memory, ReadFault, Tag, View, Writer, bad, is_primitive_tag, put_int,
    take_parts, take_required,
};
use mta_names::{Code, constructed, primitive, put_around, read_code};
use std::alloc::Global;

/// The components.
#[derive(Clone, Copy)]
pub enum FailurePart {
    Reason,
    Diagnostic,
}

/// The components so far.
#[derive(Drop)]
pub struct FailureParts {
    pub reason: Option<Code>,
    pub diagnostic: Option<Code>,
}

fn part_of(tag: Tag) -> Option<FailurePart>
    ensures { result ≡ failure_part_of tag }
{
    if is_primitive_tag(tag, 2, 0) {
        Some(FailurePart::Reason)
    } else if is_primitive_tag(tag, 2, 1) {
        Some(FailurePart::Diagnostic)
    } else {
        None
    }
}

impl FailureParts {
    /// Whether a component is there already.
    fn is_held(&self, place: FailurePart) -> bool
        ensures { result ≡ failure_held place self.now }
    {
        match place {
            FailurePart::Reason => self.reason.is_some(),
            FailurePart::Diagnostic => self.diagnostic.is_some(),
        }
    }

    fn put(&mut self, place: FailurePart, part: &View) -> Result<(), ReadFault>
        ensures { Leaves result self.new (failure_part_in place self.old (view part.now)) }
    {
        match place {
            FailurePart::Reason => self.reason = Some(read_code(part)?),
            FailurePart::Diagnostic => self.diagnostic = Some(read_code(part)?),
        }
        Ok(())
    }
}

impl Components for FailureParts {
    ghost step = { failure_step };

    #[tactic(auto, unfolding(crate::specs::Failures::failure_step))]
    fn take(&mut self, _alloc: Global, part: &View) -> Result<(), ReadFault> {
        match part_of(part.tag) {
            None => bad(part.at, Kind::BadTag),
            Some(place) => {
                if self.is_held(place) {
                    return bad(part.at, Kind::Twice);
                }
                self.put(place, part)
            }
        }
    }
}

fn finished(parts: FailureParts, at: u32) -> Result<Outcome, ReadFault>
    ensures { Reads result (failure_from parts at) }
{
    let FailureParts { reason, diagnostic } = parts;
    let reason = take_required(reason, at)?;
    Ok(Outcome::NonDelivery { reason, diagnostic })
}

/// A non-delivery, its components in any order.
#[tactic(auto, unfolding(crate::specs::Failures::failure_in))]
pub fn read_failure(alloc: Global, whole: &View) -> Result<Outcome, ReadFault>
    ensures { Reads result (failure_in (view whole.now)) }
{
    if !whole.tag.constructed {
        return bad(whole.at, Kind::BadTag);
    }
    let mut parts = FailureParts {
        reason: None,
        diagnostic: None,
    };
    take_parts(alloc, whole, &mut parts)?;
    finished(parts, whole.at)
}

/// Appends a diagnostic, where it is there.
#[tactic(auto, using(crate::proofs::Written::appended_none))]
fn put_diagnostic(w: &mut Writer, diagnostic: Option<Code>) -> Result<(), Memory>
    ensures { OnOk result (w.new ≡ appended w.old (optional canonical_diagnostic diagnostic)) }
{
    match diagnostic {
        None => Ok(()),
        Some(diagnostic) => put_int(w, primitive(2, 1), diagnostic.number() as i64),
    }
}

/// Appends a non-delivery under `[1]`.
pub fn put_failure(w: &mut Writer, reason: Code, diagnostic: Option<Code>) -> Result<(), Memory>
    ensures ok { OnOk result (w.new ≡ appended w.old (canonical_failure reason diagnostic)) }
    ensures err { OnErr result (w.new ≡ w.old) }
{
    let mut inside = Writer::new(w.alloc());
    put_int(&mut inside, primitive(2, 0), reason.number() as i64)?;
    put_diagnostic(&mut inside, diagnostic)?;
    put_around(w, constructed(2, 1), &inside)
}
