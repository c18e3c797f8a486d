//! What a session wants done at its link.

ghost use Rattle.std.specs.Prelude.{◌≡◌, ◌≤◌, List, ℕ, Option, IfOk, OnErr};
ghost use Rattle.mta_links.specs.Links.{Leads, Talk};
ghost use Rattle.mta_session_laws.specs.Writing.{PutsWritable};
ghost use Rattle.mta_session_run.specs.Carried.{Carried};
ghost use Rattle.mta_units.specs.Canon.{IsWritable};
ghost use Rattle.mta_units.specs.declared.unit.Unit.{Unit as AnyUnit};
ghost use Rattle.mta_session_run.specs.Running.{HasPut, HasGot, Exchanged, IsUndone};

use crate::came::Came;
use crate::get::{Heard, get_unit};
use crate::put::put_unit;
use mta_ber::Memory;
use mta_links::Link;
use mta_session::{Action, Event};
use mta_units::{Frames, Unit};
use std::alloc::Global;

/// What comes of an action: an event that is told to the session, or what is handed on.
#[derive(Drop)]
pub enum Done {
    Told(Event),
    Came(Came),
}

/// Puts a unit, and tells whether it is wholly put. After want of memory nothing was put.
fn put<L: Link>(alloc: Global, link: &mut L, unit: &Unit) -> Result<Event, Memory>
    requires { IsWritable unit.now }
    ensures put { IfOk result (λ e. HasPut L.model unit.now link.old e link.new) }
    ensures none { OnErr result (L.model.talk link.new ≡ L.model.talk link.old) }
    ensures later { L.model.faults link.old ≤ L.model.faults link.new }
{
    if put_unit(alloc, link, unit)? {
        Ok(Event::Go)
    } else {
        Ok(Event::Over)
    }
}

/// Reads the next unit. After want of memory all that the link gave was read before or stands in the frames.
fn get<L: Link>(link: &mut L, frames: &mut Frames) -> Result<Event, Memory>
    ensures got { IfOk result (λ e. HasGot L.model link.old frames.old e link.new frames.new) }
    ensures kept { (since : Option Talk) (us : List AnyUnit) (octets : List ℕ) →
        Leads (Carried us octets frames.old) since (L.model.talk link.old) →
        OnErr result (Leads (Carried us octets frames.new) since (L.model.talk link.new)) }
    ensures later { L.model.faults link.old ≤ L.model.faults link.new }
{
    match get_unit(link, frames)? {
        Heard::Unit(unit) => Ok(Event::Unit(unit)),
        Heard::Bad => Ok(Event::BadUnit),
        Heard::Over => Ok(Event::Over),
    }
}

/// Puts or reads, as the session wants; a question and an end are handed on. After want of memory nothing was put, and
/// all that the link gave was read before or stands in the frames.
pub fn exchange<L: Link>(
    alloc: Global,
    link: &mut L,
    frames: &mut Frames,
    action: Action,
) -> Result<Done, Memory>
    requires { PutsWritable action }
    ensures done { IfOk result (λ d. Exchanged L.model action link.old frames.old d link.new frames.new) }
    ensures short { OnErr result (IsUndone L.model action link.old frames.old link.new) }
    ensures kept { (since : Option Talk) (us : List AnyUnit) (octets : List ℕ) →
        Leads (Carried us octets frames.old) since (L.model.talk link.old) →
        OnErr result (Leads (Carried us octets frames.new) since (L.model.talk link.new)) }
    ensures later { L.model.faults link.old ≤ L.model.faults link.new }
{
    match action {
        Action::Put(unit) => Ok(Done::Told(put(alloc, link, &unit)?)),
        Action::Read => Ok(Done::Told(get(link, frames)?)),
        Action::Ask(ask) => Ok(Done::Came(Came::Asks(ask))),
        Action::Finish(end) => Ok(Done::Came(Came::Ends(end))),
    }
}
