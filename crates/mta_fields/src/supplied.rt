//! What a domain did with a message (X.411, DomainSuppliedInformation).

ghost use Rattle.std.specs.Prelude.{◌≡◌, ◌≤◌, OnOk, IfSome, pos, OnErr};
ghost use Rattle.mta_ber.specs.Canon.{appended, optional};
ghost use Rattle.mta_ber.specs.Parts.{Leaves, Reads, once};
ghost use Rattle.mta_ber.specs.Seen.{view};
ghost use Rattle.mta_ber.specs.Times.{utc_in, last_moment};
ghost use Rattle.mta_fields.specs.Domains.{canonical_domain};
ghost use Rattle.mta_fields.specs.Traces.{IsSupplied, action_in, action_number, supplied_part_of, supplied_part_in};
ghost use Rattle.mta_fields.specs.Traces.{supplied_step, supplied_in, two_bits, bit_if, canonical_other};
ghost use Rattle.mta_fields.specs.Traces.{canonical_deferred, supplied_content, canonical_supplied};

use crate::domain::Domain;
use mta_ber::{
    Bits, Components, Kind, Memory, Octets, ReadFault, Tag, View, Writer, bad, is_constructed_tag,
    is_primitive_tag, is_tag_of, put_bits, put_int, put_utc, take_parts, take_required,
};
use mta_names::{constructed, primitive, put_around, put_raw_if, read_number};
use std::alloc::Global;

/// The routing action of a trace element.
#[derive(Clone, Copy)]
pub enum Action {
    Relayed,
    Rerouted,
}

/// What a domain did with a message. Moments are seconds from 1950-01-01 00:00:00 UTC, at most the last second of 2049.
pub struct Supplied {
    pub arrival: u64,
    pub action: Action,
    /// The domain to which relaying was attempted before a rerouting.
    pub attempted: Option<Domain>,
    /// Until when the message was held.
    pub deferred: Option<u64>,
    /// Converted encoded information types: the whole element, `[APPLICATION 5]`.
    pub converted: Option<Octets>,
    /// Other actions.
    pub redirected: bool,
    pub dl: bool,
}

// Written out, since a derived one is opened anew, field by field, at each place where a value is let go.
impl Drop for Supplied {
    fn drop(self) {
        let Supplied {
            arrival: _,
            action: _,
            attempted: _,
            deferred: _,
            converted: _,
            redirected: _,
            dl: _,
        } = self;
    }
}

/// The components.
#[derive(Clone, Copy)]
pub enum SuppliedPart {
    Arrival,
    Deferred,
    Routing,
    Other,
    Attempted,
    Converted,
}

/// The components so far.
#[derive(Drop)]
pub struct SuppliedParts {
    pub arrival: Option<u64>,
    pub deferred: Option<u64>,
    pub action: Option<Action>,
    pub other: Option<Bits>,
    pub attempted: Option<Domain>,
    pub converted: Option<Octets>,
}

fn part_of(tag: Tag) -> Option<SuppliedPart>
    ensures { result ≡ supplied_part_of tag }
{
    if is_tag_of(tag, 2, 0) {
        Some(SuppliedPart::Arrival)
    } else if is_tag_of(tag, 2, 1) {
        Some(SuppliedPart::Deferred)
    } else if is_primitive_tag(tag, 2, 2) {
        Some(SuppliedPart::Routing)
    } else if is_tag_of(tag, 2, 3) {
        Some(SuppliedPart::Other)
    } else if is_constructed_tag(tag, 1, 3) {
        Some(SuppliedPart::Attempted)
    } else if is_tag_of(tag, 1, 5) {
        Some(SuppliedPart::Converted)
    } else {
        None
    }
}

fn read_action(part: &View) -> Result<Action, ReadFault>
    ensures { Reads result (action_in (view part.now)) }
{
    let number = read_number(part, 0, 1)?;
    if number == 0 {
        Ok(Action::Relayed)
    } else {
        Ok(Action::Rerouted)
    }
}

/// A time for a place that is empty. Twice where it is not.
fn read_time_once(held: Option<u64>, part: &View) -> Result<u64, ReadFault>
    ensures { Reads result (once held part.now.at (utc_in (view part.now))) }
{
    if held.is_some() {
        return bad(part.at, Kind::Twice);
    }
    let moment = part.utc()?;
    Ok(moment)
}

impl SuppliedParts {
    fn put(&mut self, alloc: Global, place: SuppliedPart, part: &View) -> Result<(), ReadFault>
        ensures { Leaves result self.new (supplied_part_in place self.old (view part.now)) }
    {
        match place {
            SuppliedPart::Arrival => {
                self.arrival = Some(read_time_once(self.arrival, part)?);
            }
            SuppliedPart::Deferred => {
                self.deferred = Some(read_time_once(self.deferred, part)?);
            }
            SuppliedPart::Routing => {
                if self.action.is_some() {
                    return bad(part.at, Kind::Twice);
                }
                self.action = Some(read_action(part)?);
            }
            SuppliedPart::Other => {
                if self.other.is_some() {
                    return bad(part.at, Kind::Twice);
                }
                self.other = Some(part.bits()?);
            }
            SuppliedPart::Attempted => {
                if self.attempted.is_some() {
                    return bad(part.at, Kind::Twice);
                }
                self.attempted = Some(Domain::read(alloc, part)?);
            }
            SuppliedPart::Converted => {
                if self.converted.is_some() {
                    return bad(part.at, Kind::Twice);
                }
                self.converted = Some(Octets::from_slice(alloc, part.octets)?);
            }
        }
        Ok(())
    }
}

impl Components for SuppliedParts {
    ghost step = { supplied_step };

    #[tactic(auto, unfolding(crate::specs::Traces::supplied_step))]
    fn take(&mut self, alloc: Global, part: &View) -> Result<(), ReadFault> {
        match part_of(part.tag) {
            None => bad(part.at, Kind::BadTag),
            Some(place) => self.put(alloc, place, part),
        }
    }
}

/// Whether a bit is set, in bits that may be absent.
pub fn is_set(bits: &Option<Bits>, place: u8) -> bool
    ensures { result ≡ bit_if bits.now place }
{
    match bits {
        None => false,
        Some(bits) => (*bits).is_set(place),
    }
}

/// What a domain supplied, its components in any order.
#[tactic(auto, unfolding(crate::specs::Traces::supplied_in))]
pub fn read_supplied(alloc: Global, whole: &View) -> Result<Supplied, ReadFault>
    ensures { Reads result (supplied_in (view whole.now)) }
{
    if !whole.tag.constructed {
        return bad(whole.at, Kind::BadTag);
    }
    let mut parts = SuppliedParts {
        arrival: None,
        deferred: None,
        action: None,
        other: None,
        attempted: None,
        converted: None,
    };
    take_parts(alloc, whole, &mut parts)?;
    let SuppliedParts {
        arrival,
        deferred,
        action,
        other,
        attempted,
        converted,
    } = parts;
    let arrival = take_required(arrival, whole.at)?;
    let action = take_required(action, whole.at)?;
    Ok(Supplied {
        arrival,
        action,
        attempted,
        deferred,
        converted,
        redirected: is_set(&other, 0),
        dl: is_set(&other, 1),
    })
}

pub fn action_number_of(action: Action) -> i64
    ensures { result ≡ pos (action_number action) }
{
    match action {
        Action::Relayed => 0,
        Action::Rerouted => 1,
    }
}

/// Appends the domain, where it is there.
#[tactic(auto, using(crate::proofs::Written::appended_none))]
fn put_attempted(w: &mut Writer, domain: &Option<Domain>) -> Result<(), Memory>
    ensures { OnOk result (w.new ≡ appended w.old (optional canonical_domain domain.now)) }
{
    match domain {
        None => Ok(()),
        Some(domain) => domain.write(w),
    }
}

#[tactic(auto, using(crate::proofs::Written::appended_none))]
fn put_deferred(w: &mut Writer, moment: Option<u64>) -> Result<(), Memory>
    requires { IfSome moment (λ m. m ≤ last_moment) }
    ensures { OnOk result (w.new ≡ appended w.old (optional canonical_deferred moment)) }
{
    match moment {
        None => Ok(()),
        Some(moment) => put_utc(w, primitive(2, 1), moment),
    }
}

pub fn two_bits_of(first: bool, second: bool) -> Bits
    ensures { result ≡ two_bits first second }
{
    match (first, second) {
        (false, false) => Bits::new(2, 0),
        (false, true) => Bits::new(2, 1),
        (true, false) => Bits::new(2, 2),
        (true, true) => Bits::new(2, 3),
    }
}

#[tactic(auto, using(crate::proofs::Written::appended_none))]
fn put_other(w: &mut Writer, redirected: bool, dl: bool) -> Result<(), Memory>
    ensures { OnOk result (w.new ≡ appended w.old (canonical_other redirected dl)) }
{
    if !redirected && !dl {
        return Ok(());
    }
    put_bits(w, primitive(2, 3), two_bits_of(redirected, dl))
}

/// Appends what a domain supplied, in its canonical octets.
#[tactic(auto, unfolding(crate::specs::Traces::canonical_supplied))]
pub fn put_supplied(w: &mut Writer, v: &Supplied) -> Result<(), Memory>
    requires { IsSupplied v.now }
    ensures ok { OnOk result (w.new ≡ appended w.old (canonical_supplied v.now)) }
    ensures err { OnErr result (w.new ≡ w.old) }
{
    let mut inside = Writer::new(w.alloc());
    put_attempted(&mut inside, &v.attempted)?;
    put_raw_if(&mut inside, &v.converted)?;
    put_utc(&mut inside, primitive(2, 0), v.arrival)?;
    put_deferred(&mut inside, v.deferred)?;
    put_int(&mut inside, primitive(2, 2), action_number_of(v.action))?;
    put_other(&mut inside, v.redirected, v.dl)?;
    put_around(w, constructed(0, 17), &inside)
}
