//! A session that is run over its link.

ghost use Rattle.std.specs.Prelude.{◌≡◌, ◌≤◌, IfOk, OnErr};
ghost use Rattle.mta_session.specs.Fits.{Answers};
ghost use Rattle.mta_session.specs.Rank.{calls_left};
ghost use Rattle.mta_session_run.specs.Running.{IsCalled, HasTold, HasRun, HasStopped, HasKept};

use crate::came::Came;
use crate::link::{Done, exchange};
use mta_ber::Memory;
use mta_links::Link;
use mta_session::{Action, Event, Session};
use mta_session_laws::{actions_are_awaited, units_put_may_be_written};
use mta_units::Frames;
use std::alloc::Global;

/// Tells the session an event. It is one call more of the session; after want of memory it is none.
pub fn tell(session: &mut Session, event: Event) -> Result<Action, Memory>
    requires answers { Answers session.old event }
    ensures told { IfOk result (λ a. HasTold session.old event a session.new) }
    ensures err { OnErr result (session.new ≡ session.old) }
{
    session.fits();
    units_put_may_be_written();
    actions_are_awaited();
    let action = session.step(event)?;
    session.fits();
    Ok(action)
}

/// Carries a session on over its link, from an action of it, until it asks the spool something or is over. While it
/// does so no step is made. What is asked is handed to the caller, who tells the session the answer (`tell`) and
/// carries it on from the action that it has then. After want of memory the calls so far stand; of the last action
/// nothing came, or an event that the session was not told. And all that the link gave was read, or stands in the
/// frames.
pub fn carry_on<L: Link>(
    alloc: Global,
    link: &mut L,
    frames: &mut Frames,
    session: &mut Session,
    action: Action,
) -> Result<Came, Memory>
    requires called { IsCalled session.old action }
    ensures run { IfOk result
        (λ c. HasRun L.model session.old action link.old frames.old c session.new link.new frames.new) }
    ensures lost { OnErr result
        (HasStopped L.model session.old action link.old frames.old session.new link.new) }
    ensures kept { OnErr result (HasKept L.model link.old frames.old link.new frames.new) }
    ensures left { calls_left session.new ≤ calls_left session.old }
    ensures later { L.model.faults link.old ≤ L.model.faults link.new }
{
    let mut wanted = action;
    loop {
        match exchange(alloc, link, frames, wanted)? {
            Done::Came(came) => return Ok(came),
            Done::Told(event) => wanted = tell(session, event)?,
        }
    }
}
