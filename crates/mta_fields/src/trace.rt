//! Trace elements.

ghost use Rattle.std.specs.Prelude.{◌≡◌};
ghost use Rattle.mta_ber.specs.Parts.{Leaves, Reads};
ghost use Rattle.mta_ber.specs.Seen.{view};
ghost use Rattle.mta_fields.specs.TraceElements.{trace_part_of, trace_place, trace_needed};
ghost use Rattle.mta_fields.specs.TraceElements.{trace_part_in, trace_step, trace_in};

use crate::domain::Domain;
use crate::length::supplied_length;
use crate::supplied::{Supplied, put_supplied, read_supplied};
use mta_ber::{
    Components, Kind, Memory, ReadFault, Tag, View, Writer, bad, check_order, element_length,
    is_constructed_tag, is_tag_of, length_of_both, take_parts, take_required,
};
use mta_names::{constructed, put_around};
use std::alloc::Global;
use std::marker::Model;

/// What a trace element has.
pub struct TraceFields {
    pub domain: Domain,
    pub supplied: Supplied,
}

// Written out, since a derived one is opened anew, field by field, at each place where a value is let go.
impl Drop for TraceFields {
    fn drop(self) {
        let TraceFields {
            domain: _,
            supplied: _,
        } = self;
    }
}

/// A trace element (X.411, TraceInformationElement): a domain, and what it did with the message.
pub struct TraceElement {
    fields: TraceFields,
}

// Written out, since a derived one is opened anew, field by field, at each place where a value is let go.
impl Drop for TraceElement {
    fn drop(self) {
        let TraceElement { fields: _ } = self;
    }
}

impl Model for TraceElement {
    ghost use Rattle.mta_fields.specs.declared.trace.TraceFields.{TraceFields};
    ghost use Rattle.mta_fields.specs.TraceElements.{IsTrace};

    ghost Value = { TraceFields };

    ghost view = { λ e. e.fields };

    ghost invariant = { λ e. IsTrace e.fields };
}

/// The components of an element.
#[derive(Clone, Copy)]
pub enum TracePart {
    Place,
    Information,
}

/// The place of the last component that was read, 0 where there is none, and the components so far.
#[derive(Drop)]
pub struct TraceParts {
    pub last: u8,
    pub domain: Option<Domain>,
    pub supplied: Option<Supplied>,
}

fn part_of(tag: Tag) -> Option<TracePart>
    ensures { result ≡ trace_part_of tag }
{
    if is_tag_of(tag, 1, 3) {
        Some(TracePart::Place)
    } else if is_tag_of(tag, 0, 17) {
        Some(TracePart::Information)
    } else {
        None
    }
}

fn place_of(part: TracePart) -> u8
    ensures { result ≡ trace_place part }
{
    match part {
        TracePart::Place => 1,
        TracePart::Information => 2,
    }
}

fn needed_of(part: TracePart) -> u8
    ensures { result ≡ trace_needed part }
{
    match part {
        TracePart::Place => 0,
        TracePart::Information => 1,
    }
}

impl TraceParts {
    fn put(&mut self, alloc: Global, place: TracePart, part: &View) -> Result<(), ReadFault>
        ensures { Leaves result self.new (trace_part_in place self.old (view part.now)) }
    {
        match place {
            TracePart::Place => {
                self.domain = Some(Domain::read(alloc, part)?);
            }
            TracePart::Information => {
                self.supplied = Some(read_supplied(alloc, part)?);
            }
        }
        self.last = place_of(place);
        Ok(())
    }
}

impl Components for TraceParts {
    ghost step = { trace_step };

    #[tactic(auto, unfolding(crate::specs::TraceElements::trace_step))]
    fn take(&mut self, alloc: Global, part: &View) -> Result<(), ReadFault> {
        match part_of(part.tag) {
            None => bad(part.at, Kind::BadTag),
            Some(place) => {
                check_order(self.last, needed_of(place), place_of(place), part.at)?;
                self.put(alloc, place, part)
            }
        }
    }
}

#[tactic(auto, unfolding(crate::specs::TraceElements::trace_in))]
fn read_fields(alloc: Global, whole: &View) -> Result<TraceFields, ReadFault>
    ensures { Reads result (trace_in (view whole.now)) }
{
    if !is_constructed_tag(whole.tag, 0, 16) {
        return bad(whole.at, Kind::BadTag);
    }
    let mut parts = TraceParts {
        last: 0,
        domain: None,
        supplied: None,
    };
    take_parts(alloc, whole, &mut parts)?;
    let TraceParts {
        last: _,
        domain,
        supplied,
    } = parts;
    let domain = take_required(domain, whole.at)?;
    let supplied = take_required(supplied, whole.at)?;
    Ok(TraceFields { domain, supplied })
}

impl TraceElement {
    ghost use Rattle.std.specs.Prelude.{◌≡◌, IfOk, OnOk, OnErr};
    ghost use Rattle.mta_ber.specs.Canon.{appended};
    ghost use Rattle.mta_ber.specs.Lengths.{octet_length};
    ghost use Rattle.mta_ber.specs.Parts.{Reads, IsReadAs};
    ghost use Rattle.mta_ber.specs.Seen.{view};
    ghost use Rattle.mta_fields.specs.declared.trace.TraceFields.{TraceFields};
    ghost use Rattle.mta_fields.specs.TraceElements.{trace_in, IsTrace, SpellsTrace, canonical_trace};

    /// The trace element that an element spells, a SEQUENCE. BadTag at an element of any other tag.
    pub fn read(alloc: Global, whole: &View) -> Result<TraceElement, ReadFault>
        // Which trace element it is, or which fault comes first.
        ensures exact { Reads result (trace_in (view whole.now)) }

        // What is answered is spelled by the element, and what the element spells is answered.
        ensures found { IfOk result (SpellsTrace whole.now.depth whole.now.tag whole.now.content.now) }
        ensures only { (v : TraceFields) → SpellsTrace whole.now.depth whole.now.tag whole.now.content.now v
            → IsReadAs result v }
    {
        match read_fields(alloc, whole) {
            Ok(fields) => Ok(TraceElement { fields }),
            Err(fault) => Err(fault),
        }
    }

    /// Appends the trace element in its canonical octets.
    #[tactic(auto, unfolding(crate::specs::TraceElements::canonical_trace))]
    pub fn write(&self, w: &mut Writer) -> Result<(), Memory>
        ensures ok { OnOk result (w.new ≡ appended w.old (canonical_trace self.now)) }
        ensures err { OnErr result (w.new ≡ w.old) }
    {
        let mut inside = Writer::new(w.alloc());
        self.fields.domain.write(&mut inside)?;
        put_supplied(&mut inside, &self.fields.supplied)?;
        put_around(w, constructed(0, 16), &inside)
    }

    /// How many octets `write` appends, told without memory; 2^64 - 1 where there are as many or more.
    #[tactic(auto, unfolding(crate::specs::TraceElements::canonical_trace))]
    pub fn length(&self) -> u64
        ensures { result ≡ octet_length (canonical_trace self.now) }
    {
        let supplied = supplied_length(&self.fields.supplied);
        element_length(
            constructed(0, 16),
            length_of_both(self.fields.domain.length(), supplied),
        )
    }

    /// A trace element of these parts, which takes no memory.
    pub fn from_fields(fields: TraceFields) -> TraceElement
        requires { IsTrace fields }
        ensures { result ≡ fields }
    {
        TraceElement { fields }
    }

    /// The parts, lent.
    pub fn fields(&self) -> &TraceFields
        ensures exact { result.now ≡ self.now }
        ensures element { IsTrace self.now }
    {
        &self.fields
    }
}
