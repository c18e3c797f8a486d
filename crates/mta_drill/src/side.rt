//! One side of a session between two agents: its session is carried on until it has to wait for the other side.
//!
//! What a session wants is done as a worker does it (`mta_worker`): units are put and read over the link, and questions
//! are answered by the spool. In comes the action that it wants; out goes that it waits for a unit, or that it came to
//! its end. Where a question is a place at which the link is to be broken, it is broken there.

ghost use Rattle.std.specs.Prelude.{◌≡◌, ◌<◌, ◌++◌, [], IfOk, List, false};
ghost use Rattle.mta_edge.specs.Moments.{memory_clock};
ghost use Rattle.mta_session.specs.Rank.{calls_left};
ghost use Rattle.mta_session.specs.declared.event.Action.TheVariants as actions;
ghost use Rattle.mta_session.specs.declared.event.Event.TheVariants as events;
ghost use Rattle.mta_session_run.specs.Running.{HasTold, IsCalled};
ghost use Rattle.mta_spool.specs.Stands.{TellsFewer};
ghost use Rattle.mta_units.specs.Canon.{IsWritable};
ghost use Rattle.mta_units.specs.declared.unit.Unit.{Unit as AnyUnit};
ghost use Rattle.mta_worker.specs.Told.{TellsLine};
ghost use Rattle.mta_drill_links.specs.Ways.{AreOnWay};
ghost use Rattle.mta_drill_stage_laws.specs.World.{Link as WorldLink, Party};
ghost use Rattle.mta_drill.specs.Sides.{GoesOn, HasRested, MayWait};
ghost use Rattle.mta_drill.specs.Acts.{HasAnswer, HasAsked, HasCome, HasDone, HasGot, HasRead, IsBrokenBy};
ghost use Rattle.mta_drill.specs.Acts.{IsOfReading, IsSide, RestsAt, put_event, put_units};

use crate::agent::{Agent, check};
use crate::breaks::Breaks;
use mta_ber::Memory;
use mta_drill_links::Way;
use mta_session::{Action, Ask, Event, Reply, Session, SessionEnd};
use mta_session_run::tell;
use mta_units::Unit;
use mta_worker::{Lost, answer, halt_after, told};
use std::alloc::Global;

/// A session, and the way to its end of the link.
#[derive(Drop)]
pub(crate) struct Side {
    pub session: Session,
    pub came: Way,
}

/// Where a side rests.
#[derive(Clone, Copy, Drop, PartialEq, Eq)]
pub(crate) enum Rest {
    /// It reads, and nothing has come.
    Waits,
    /// Its session is over.
    Over { is_closed: bool },
}

/// What the session wants next, or where it rests.
#[derive(Drop)]
pub(crate) enum Done {
    Told(Action),
    Rests(Rest),
}

// Puts a unit on the way to the other end, and tells whether the link took it: a broken one takes none.
fn put(alloc: Global, came: &Way, other: &mut Way, unit: &Unit) -> Result<Event, Memory>
    requires writable { IsWritable unit.now }
    ensures event { IfOk result (λ e. e ≡ put_event came.now.is_broken) }
    ensures units { (us : List AnyUnit) → AreOnWay us other.old.feed
        → IfOk result (λ e. AreOnWay (us ++ put_units came.now.is_broken unit.now) other.new.feed) }
    ensures broken { other.new.is_broken ≡ other.old.is_broken }
{
    if came.is_broken() {
        return Ok(Event::Over);
    }
    other.put(alloc, unit)?;
    Ok(Event::Go)
}

// Reads the next unit that came; none where nothing did. A broken link gives none, and is over.
fn get(came: &mut Way) -> Result<Option<Event>, Memory>
    ensures got { (us : List AnyUnit) → AreOnWay us came.old.feed
        → IfOk result (λ o. HasGot came.old.is_broken us o came.new.feed) }
    ensures read { IfOk result IsOfReading }
    ensures broken { came.new.is_broken ≡ came.old.is_broken }
{
    if came.is_broken() {
        return Ok(Some(Event::Over));
    }
    match came.next()? {
        Some(unit) => Ok(Some(Event::Unit(unit))),
        None => Ok(None),
    }
}

// Breaks the link where the place is reached at which it is to be broken.
fn break_behind(came: &mut Way, other: &mut Way, breaks: &mut Breaks, ask: &Ask)
    ensures broken { IsBrokenBy came.old.is_broken breaks.old ask.now came.new.is_broken breaks.new }
    ensures alike { other.old.is_broken ≡ came.old.is_broken → other.new.is_broken ≡ came.new.is_broken }
    ensures came { came.new.feed ≡ came.old.feed }
    ensures other { other.new.feed ≡ other.old.feed }
{
    if breaks.take(ask) {
        came.break_off();
        other.break_off();
    }
}

// The spool's answer to a question. Want of memory is refused.
fn answered(alloc: Global, spool: &mut Agent, ask: Ask) -> Result<Reply, Memory>
    ensures answered { IfOk result (λ x. HasAnswer ask spool.old x spool.new) }
    ensures line { IfOk result (λ x. TellsLine (events.Reply x)) }
    ensures clock { TellsFewer memory_clock spool.old.clock spool.new.clock }
{
    let reply = answer(alloc, spool, ask);
    check(halt_after(&reply))?;
    Ok(reply)
}

impl Side {
    /// A side of a session on a new link.
    pub fn new(alloc: Global, session: Session) -> Side
        ensures session { result.session ≡ session }
        ensures none { AreOnWay [] result.came.feed }
        ensures whole { result.came.is_broken ≡ false }
    {
        Side {
            session,
            came: Way::new(alloc),
        }
    }

    // Puts a unit, and tells the session.
    fn put(&mut self, alloc: Global, other: &mut Way, unit: Unit) -> Result<Action, Memory>
        requires called { IsCalled self.old.session (actions.Put unit) }
        ensures called { IfOk result (IsCalled self.new.session) }
        ensures falls { IfOk result (λ a. calls_left self.new.session < calls_left self.old.session) }
        ensures told { IfOk result
            (λ a. HasTold self.old.session (put_event self.old.came.is_broken) a self.new.session) }
        ensures units { (us : List AnyUnit) → AreOnWay us other.old.feed
            → IfOk result (λ a. AreOnWay (us ++ put_units self.old.came.is_broken unit) other.new.feed) }
        ensures came { self.new.came ≡ self.old.came }
        ensures broken { other.new.is_broken ≡ other.old.is_broken }
    {
        let event = put(alloc, &self.came, other, &unit)?;
        tell(&mut self.session, event)
    }

    // Reads the next unit, and tells the session; or waits where nothing came.
    fn read(&mut self) -> Result<Done, Memory>
        requires called { IsCalled self.old.session actions.Read }
        ensures done { IfOk result (λ d. GoesOn self.old.session d self.new.session) }
        ensures read { (us : List AnyUnit) → AreOnWay us self.old.came.feed
            → IfOk result (λ d. HasRead self.old.came.is_broken us self.old.session d self.new.session
            self.new.came.feed) }
        ensures broken { self.new.came.is_broken ≡ self.old.came.is_broken }
    {
        match get(&mut self.came)? {
            Some(event) => Ok(Done::Told(tell(&mut self.session, event)?)),
            None => Ok(Done::Rests(Rest::Waits)),
        }
    }

    // Asks the spool. The link is broken with the question where its place is reached, so that nothing to which the
    // answer leads goes over it. A session that cannot be told the answer is over.
    fn ask(
        &mut self,
        alloc: Global,
        spool: &mut Agent,
        breaks: &mut Breaks,
        other: &mut Way,
        ask: Ask,
    ) -> Result<Done, Memory>
        requires called { IsCalled self.old.session (actions.Ask ask) }
        ensures done { IfOk result (λ d. GoesOn self.old.session d self.new.session) }
        ensures asked { IfOk result
            (λ d. HasAsked ask spool.old self.old.session d spool.new self.new.session) }
        ensures broken { IsBrokenBy self.old.came.is_broken breaks.old ask self.new.came.is_broken breaks.new }
        ensures alike { other.old.is_broken ≡ self.old.came.is_broken
            → other.new.is_broken ≡ self.new.came.is_broken }
        ensures came { self.new.came.feed ≡ self.old.came.feed }
        ensures other { other.new.feed ≡ other.old.feed }
        ensures clock { TellsFewer memory_clock spool.old.clock spool.new.clock }
    {
        break_behind(&mut self.came, other, breaks, &ask);
        let reply = answered(alloc, spool, ask)?;
        match told(&mut self.session, reply) {
            Ok(action) => Ok(Done::Told(action)),
            Err(Lost::Memory) => Err(Memory),
            Err(Lost::Lane) => Ok(Done::Rests(Rest::Over { is_closed: false })),
        }
    }

    /// Does what the session wants. Both ways of a link are broken together.
    pub fn act(
        &mut self,
        alloc: Global,
        spool: &mut Agent,
        breaks: &mut Breaks,
        other: &mut Way,
        action: Action,
    ) -> Result<Done, Memory>
        requires called { IsCalled self.old.session action }
        ensures done { IfOk result (λ d. GoesOn self.old.session d self.new.session) }
        ensures acts { (p : Party) (l : WorldLink) → IsSide self.old spool.old action breaks.old p l
            → IfOk result (λ d. HasDone p l d self.new spool.new breaks.new other.old.feed other.new.feed) }
        ensures alike { other.old.is_broken ≡ self.old.came.is_broken
            → other.new.is_broken ≡ self.new.came.is_broken }
    {
        match action {
            Action::Put(unit) => Ok(Done::Told(self.put(alloc, other, unit)?)),
            Action::Read => self.read(),
            Action::Ask(ask) => self.ask(alloc, spool, breaks, other, ask),
            Action::Finish(end) => Ok(Done::Rests(Rest::Over {
                is_closed: end == SessionEnd::Closed,
            })),
        }
    }

    /// Carries the session on from an action of it until it rests.
    pub fn carry_on(
        &mut self,
        alloc: Global,
        spool: &mut Agent,
        breaks: &mut Breaks,
        other: &mut Way,
        first: Action,
    ) -> Result<Rest, Memory>
        requires called { IsCalled self.old.session first }
        ensures rested { IfOk result (λ r. HasRested self.old.session r self.new.session) }
        ensures came { (p : Party) (l : WorldLink) → IsSide self.old spool.old first breaks.old p l
            → IfOk result (λ r. HasCome p l r self.new spool.new breaks.new other.old.feed other.new.feed) }
        ensures alike { other.old.is_broken ≡ self.old.came.is_broken
            → IfOk result (λ r. other.new.is_broken ≡ self.new.came.is_broken) }
    {
        let mut action = first;
        loop {
            match self.act(alloc, spool, breaks, other, action)? {
                Done::Told(next) => action = next,
                Done::Rests(rest) => return Ok(rest),
            }
        }
    }

    /// Carries a session on that waits, until it rests again.
    pub fn go_on(
        &mut self,
        alloc: Global,
        spool: &mut Agent,
        breaks: &mut Breaks,
        other: &mut Way,
        rest: Rest,
    ) -> Result<Rest, Memory>
        requires waits { MayWait self.old.session rest }
        ensures rested { IfOk result (MayWait self.new.session) }
        ensures came { (p : Party) (l : WorldLink) → RestsAt rest self.old spool.old breaks.old p l
            → IfOk result (λ r. HasCome p l r self.new spool.new breaks.new other.old.feed other.new.feed) }
        ensures alike { other.old.is_broken ≡ self.old.came.is_broken
            → IfOk result (λ r. other.new.is_broken ≡ self.new.came.is_broken) }
    {
        match rest {
            Rest::Waits => self.carry_on(alloc, spool, breaks, other, Action::Read),
            Rest::Over { .. } => Ok(rest),
        }
    }
}
