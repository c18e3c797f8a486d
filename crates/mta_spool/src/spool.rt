//! The spool: its journal, its state in memory, and the calls that make a step.
//!
//! `set_tables`, `accept` and `turn` each make at most one step: refuse where the spool has ended or too few numbers
//! are left, and make the step (`make.rt`). `turn` makes what is due for the lowest item and recipient, or says that
//! nothing is.
//!
//! Out goes Ok with the step durable, or a `StepFault`: after `Disk` every further step is `Ended`, and after any other
//! journal and state are equal to those before. A crash at any moment of a call leaves the history with the step or
//! without it (`Appends` in `specs/Stands.antt`).

ghost use Rattle.std.specs.Prelude.{◌≡◌, ◌≢◌, ◌≤◌, ◌<◌, ◌+◌, ◌^◌, [], length, IfOk, IfErr, IsTrue, ◌↔◌, false};
ghost use Rattle.std.specs.Option.{option_copied};
ghost use Rattle.mta_ber.specs.Times.{last_moment};
ghost use Rattle.mta_records.specs.Body.{HasFields, body_of};
ghost use Rattle.mta_journal.specs.Bodies.{longest_body};
ghost use Rattle.mta_machine.specs.Apdu.{IsApdu};
ghost use Rattle.mta_machine.specs.Items.{numbered};
ghost use Rattle.mta_machine.specs.Machine.{last_tables};
ghost use Rattle.mta_histories.specs.History.{IsPossible};
ghost use Rattle.mta_table_rules.specs.Text.{format_of, text_of};
ghost use Rattle.mta_replay.specs.Ready.{IsReady};
ghost use Rattle.mta_spool.specs.Turning.{IsLastRecorded, IsRecorded};

use crate::at_opening::AtOpening;
use crate::due::{numbers_needed, same};
use crate::entries::Entries;
use crate::make::{make, make_ready};
use mta_ber::{Memory, Octets};
use mta_edge::{Clock, Disk};
use mta_journal::Journal;
use mta_lanes::Lane;
use mta_machine::{Item, MailboxLine};
use mta_records::{Step, StepFault};
use mta_replay::{Ready, Replay};
use mta_table_rules::{TableRules, text_reads};
use mta_tables::Tables;
use std::alloc::Global;
use std::marker::Model;

// The last second of 2049, in seconds since 1950-01-01 00:00:00 UTC.
const LAST_MOMENT: u64 = 3_155_759_999;

// The number of the last item that there may be.
const LAST_NUMBER: usize = 4_294_967_295;

// How many numbers an item that is accepted needs: its own, and one for a report.
const NEEDED_TO_ACCEPT: usize = 2;

/// What a turn did.
#[derive(Drop)]
pub enum Turned {
    /// This step was due and is made.
    Did(Step),
    /// Nothing is due at this moment.
    Quiet { moment: u64 },
}

/// A spool on one disk, which takes its moments from one clock.
#[derive(Drop)]
pub struct Spool<D: Disk + Drop, C: Clock + Drop> {
    pub(crate) alloc: Global,
    pub(crate) journal: Journal<D>,
    pub(crate) clock: C,
    pub(crate) replay: Replay<TableRules>,
    // The steps that were made since it was opened, and what it was opened with: for clauses alone.
    pub(crate) entries: Entries,
    pub(crate) opened: AtOpening<D, C>,
}

impl<D: Disk + Drop, C: Clock + Drop> Model for Spool<D, C> {
    ghost use Rattle.mta_state.specs.Kept.{state_of};
    ghost use Rattle.mta_table_rules.specs.Text.{format_of, text_of};
    ghost use Rattle.mta_spool.specs.Shown.{IsSoundAt, Shown, compacted_to, with_format};

    ghost Value = { Shown D C };

    ghost view = { λ s. record {
      journal = s.journal;
      clock = s.clock;
      current = state_of s.replay.kept;
      entries = s.entries.steps;
      opened = record {
        disk = s.opened.disk.value;
        clock = s.opened.clock.value;
        synced = s.opened.synced.value;
        over = s.opened.over.value;
        found = s.opened.bodies.value.items;
        between = compacted_to s.opened.snapshot.value s.opened.bodies.value.items;
        bodies = with_format s.opened.sets_format.value
            (compacted_to s.opened.snapshot.value s.opened.bodies.value.items);
        first = s.opened.first.value;
      };
    } };

    ghost invariant = { λ s. IsSoundAt format_of text_of s.replay.kept s.replay.rules s.journal.first };
}

impl<D: Disk + Drop, C: Clock + Drop> Spool<D, C> {
    ghost use Rattle.mta_spool.specs.Bases.{KeepsOn};
    ghost use Rattle.mta_records.specs.declared.step.Step.TheVariants as Steps;
    ghost use Rattle.mta_histories.specs.Classes.{class_of};
    ghost use Rattle.mta_histories.specs.Due.{IsNext};
    ghost use Rattle.mta_replay.specs.Answers.{IsNextOf};
    ghost use Rattle.mta_histories.specs.Numbers.{numbers_needed};
    ghost use Rattle.mta_spool.specs.Stands.{Appends, AtMoment, fault_of, IsOfNoLane, IsSpent, IsSpentFor};
    ghost use Rattle.mta_spool.specs.Stands.{TellsFewer};
    ghost use Rattle.mta_spool.specs.Turning.{IsUnchanged, Records, Turns};

    // Makes a step that is possible.
    pub(crate) fn make(&mut self, step: Step) -> Result<(), StepFault>
        requires going { self.old.journal.ended ≡ false }
        requires fields { HasFields step }
        requires short { length (body_of step) ≤ longest_body }
        requires possible { IsPossible self.old.current step }
        requires numbers { IsSpent self.old.current step → ⊥ }
        ensures made { Appends D.model step self.old self.new (fault_of result) }
        ensures clock { self.new.clock ≡ self.old.clock }
        ensures opened { self.new.opened ≡ self.old.opened }
        ensures keeps { KeepsOn D.model C.model self.old self.new }
    {
        make(
            self.alloc,
            &mut self.journal,
            &mut self.replay,
            &mut self.entries,
            step,
        )
    }

    // Makes a step of which it was found what it changes.
    pub(crate) fn make_ready(
        &mut self,
        step: &Step,
        ready: Ready<TableRules>,
    ) -> Result<(), StepFault>
        requires going { self.old.journal.ended ≡ false }
        requires fields { HasFields step.now }
        requires short { length (body_of step.now) ≤ longest_body }
        requires ready { IsReady format_of text_of self.old.current step.now ready.change ready.rules }
        requires numbers { IsSpent self.old.current step.now → ⊥ }
        ensures made { Appends D.model step.now self.old self.new (fault_of result) }
        ensures clock { self.new.clock ≡ self.old.clock }
        ensures opened { self.new.opened ≡ self.old.opened }
        ensures keeps { KeepsOn D.model C.model self.old self.new }
    {
        make_ready(
            self.alloc,
            &mut self.journal,
            &mut self.replay,
            &mut self.entries,
            step,
            ready,
        )
    }

    // Refuses where fewer numbers of items are left than are needed.
    pub(crate) fn check_numbers(&self, needed: usize) -> Result<(), StepFault>
        ensures left { IfOk result (λ _. length self.now.current.machine.items + needed < 2 ^ 32) }
        ensures spent { IfErr result (IsSpentFor (length self.now.current.machine.items) needed) }
    {
        let count = self.items().len();
        if needed > LAST_NUMBER || count > LAST_NUMBER - needed {
            return Err(StepFault::Spent { last: count as u64 });
        }
        Ok(())
    }

    // Whether the text is the one of the tables recorded last.
    fn has_recorded(&self, text: &[u8]) -> bool
        ensures { IsTrue result ↔ IsRecorded self.now.current text.now }
    {
        match self.replay.kept.parts.last_text() {
            Some(last) => last == text,
            None => false,
        }
    }

    // Records tables that are not those recorded last.
    fn record_tables(&mut self, tables: &Tables) -> Result<(), StepFault>
        requires { self.old.journal.ended ≡ false }
        ensures made { Appends D.model (Steps.Tables tables.now.text) self.old self.new (fault_of result) }
        ensures clock { self.new.clock ≡ self.old.clock }
        ensures opened { self.new.opened ≡ self.old.opened }
        ensures keeps { KeepsOn D.model C.model self.old self.new }
    {
        let text = Octets::from_slice(self.alloc, tables.text())?;
        self.make(Step::Tables { text })
    }

    /// Records these tables last, or makes no step where their text is the one recorded last.
    pub fn set_tables(&mut self, tables: &Tables) -> Result<(), StepFault>
        ensures records { Records D.model tables.now.text self.old self.new result }
        ensures no_lane { IsOfNoLane (fault_of result) }
        ensures clock { self.new.clock ≡ self.old.clock }
        ensures opened { self.new.opened ≡ self.old.opened }
        ensures keeps { KeepsOn D.model C.model self.old self.new }
    {
        if self.journal.is_ended() {
            return Err(StepFault::Ended);
        }
        if self.has_recorded(tables.text()) {
            return Ok(());
        }
        self.record_tables(tables)
    }

    // The moment of a step that is made now.
    #[tactic(auto, using(crate::proofs::Keeping::keeps_still))]
    pub(crate) fn step_moment(&mut self) -> u64
        ensures moment { AtMoment C.model self.old.clock self.old.current.moment (λ m. result ≡ m) }
        ensures clock { TellsFewer C.model self.old.clock self.new.clock }
        ensures opened { self.new.opened ≡ self.old.opened }
        ensures keeps { KeepsOn D.model C.model self.old self.new }
        ensures rest { IsUnchanged self.old self.new }
        ensures timely { self.old.current.moment ≤ result }
        ensures machine { self.old.current.machine.moment ≤ result }
        ensures fits { result ≤ last_moment }
    {
        self.clock
            .now()
            .min(LAST_MOMENT)
            .max(self.replay.kept.moment)
    }

    // Takes a submitted APDU as the next item at a moment.
    fn accept_at(&mut self, moment: u64, apdu: &[u8]) -> Result<u32, StepFault>
        requires apdu { IsApdu apdu.now }
        requires tables { self.old.current.machine.tables ≢ [] }
        requires timely { self.old.current.moment ≤ moment }
        requires machine { self.old.current.machine.moment ≤ moment }
        requires fits { moment ≤ last_moment }
        ensures made { Appends D.model (Steps.Accept moment apdu.now) self.old self.new (fault_of result) }
        ensures number { IfOk result (λ n. n ≡ length self.old.current.machine.items + 1) }
        ensures clock { self.new.clock ≡ self.old.clock }
        ensures opened { self.new.opened ≡ self.old.opened }
        ensures keeps { KeepsOn D.model C.model self.old self.new }
    {
        if self.journal.is_ended() {
            return Err(StepFault::Ended);
        }
        self.check_numbers(NEEDED_TO_ACCEPT)?;
        let number = self.items().len() as u32 + 1;
        let apdu = Octets::from_slice(self.alloc, apdu)?;
        self.make(Step::Accept { moment, apdu })?;
        Ok(number)
    }

    /// Takes a submitted APDU as the next item, and answers its number.
    pub fn accept(&mut self, apdu: &[u8]) -> Result<u32, StepFault>
        requires apdu { IsApdu apdu.now }
        requires tables { self.old.current.machine.tables ≢ [] }
        ensures appends { AtMoment C.model self.old.clock self.old.current.moment
            (λ m. Appends D.model (Steps.Accept m apdu.now) self.old self.new (fault_of result)) }
        ensures no_lane { IsOfNoLane (fault_of result) }
        ensures number { IfOk result (λ n. n ≡ length self.old.current.machine.items + 1) }
        ensures clock { TellsFewer C.model self.old.clock self.new.clock }
        ensures opened { self.new.opened ≡ self.old.opened }
        ensures keeps { KeepsOn D.model C.model self.old self.new }
    {
        let moment = self.step_moment();
        self.accept_at(moment, apdu)
    }

    // Makes the step that is next at the moment, and tells it.
    fn make_due(&mut self, step: Step, moment: u64) -> Result<Turned, StepFault>
        requires next { IsNext self.old.current moment step }
        requires going { self.old.journal.ended ≡ false }
        requires timely { self.old.current.moment ≤ moment }
        requires fits { moment ≤ last_moment }
        ensures turned { Turns D.model moment self.old self.new result }
        ensures clock { self.new.clock ≡ self.old.clock }
        ensures opened { self.new.opened ≡ self.old.opened }
        ensures keeps { KeepsOn D.model C.model self.old self.new }
    {
        let needed = numbers_needed(&self.replay.kept, &step);
        self.check_numbers(needed)?;
        let told = same(&step);
        self.make(step)?;
        Ok(Turned::Did(told))
    }

    // The step that is due for the lowest item and recipient at a moment; none where nothing is due.
    #[tactic(auto, using(crate::proofs::Keeping::keeps_same))]
    fn find_due(&mut self, moment: u64) -> Result<Option<Step>, Memory>
        ensures next { IfOk result (IsNextOf self.old.current moment) }
        ensures same { IsUnchanged self.old self.new }
        ensures clock { self.new.clock ≡ self.old.clock }
        ensures opened { self.new.opened ≡ self.old.opened }
        ensures keeps { KeepsOn D.model C.model self.old self.new }
    {
        self.replay.due_step(self.alloc, moment)
    }

    // Makes the step that is due for the lowest item and recipient at a moment.
    fn turn_at(&mut self, moment: u64) -> Result<Turned, StepFault>
        requires timely { self.old.current.moment ≤ moment }
        requires fits { moment ≤ last_moment }
        ensures turned { Turns D.model moment self.old self.new result }
        ensures clock { self.new.clock ≡ self.old.clock }
        ensures opened { self.new.opened ≡ self.old.opened }
        ensures keeps { KeepsOn D.model C.model self.old self.new }
    {
        if self.journal.is_ended() {
            return Err(StepFault::Ended);
        }
        match self.find_due(moment)? {
            None => Ok(Turned::Quiet { moment }),
            Some(step) => self.make_due(step, moment),
        }
    }

    /// Makes the step that is due for the lowest item and recipient, or answers the moment at which none is due.
    pub fn turn(&mut self) -> Result<Turned, StepFault>
        ensures turned { AtMoment C.model self.old.clock self.old.current.moment
            (λ m. Turns D.model m self.old self.new result) }
        ensures no_lane { IsOfNoLane (fault_of result) }
        ensures clock { TellsFewer C.model self.old.clock self.new.clock }
        ensures opened { self.new.opened ≡ self.old.opened }
        ensures keeps { KeepsOn D.model C.model self.old self.new }
    {
        let moment = self.step_moment();
        self.turn_at(moment)
    }

    /// The items, of which the first has number 1.
    pub fn items(&self) -> &[Item]
        ensures exact { result.now ≡ self.now.current.machine.items }
        ensures numbers { length self.now.current.machine.items < 2 ^ 32 }
    {
        self.replay.kept.parts.items.as_slice()
    }

    /// The item with this number, from 1, or none where no item has it.
    pub fn item(&self, number: u32) -> Option<&Item>
        ensures { option_copied result ≡ numbered self.now.current.machine.items number }
    {
        self.replay.kept.parts.item(number)
    }

    /// What the mailboxes got, in the order of the deliveries.
    pub fn mailboxes(&self) -> &[MailboxLine]
        ensures { result.now ≡ self.now.current.machine.mailboxes }
    {
        self.replay.kept.parts.mailboxes.as_slice()
    }

    /// The open lanes, by ascending numbers.
    pub fn lanes(&self) -> &[Lane]
        ensures { result.now ≡ self.now.current.lanes.open_lanes }
    {
        self.replay.kept.lanes.open_lanes.as_slice()
    }

    /// The tables recorded last, or none.
    pub fn tables(&self) -> Option<&Tables>
        ensures { IsLastRecorded self.now.current.machine (option_copied result) }
    {
        match &self.replay.rules {
            Some(force) => {
                let tables = force.rules.tables();
                text_reads(tables);
                Some(tables)
            }
            None => None,
        }
    }

    /// The last recorded moment, in seconds since 1950-01-01 00:00:00 UTC, or 0 where there is none.
    pub fn moment(&self) -> u64
        ensures exact { result ≡ self.now.current.moment }
        ensures fits { self.now.current.moment ≤ last_moment }
    {
        self.replay.kept.moment
    }

    /// Whether a step answered that the disk failed: every further one is `Ended`.
    pub fn is_ended(&self) -> bool
        ensures { result ≡ self.now.journal.ended }
    {
        self.journal.is_ended()
    }

    /// The disk.
    pub fn end(self) -> D
        ensures { result ≡ self.journal.disk }
    {
        let Spool {
            journal,
            replay,
            ..
        } = self;
        replay.discard();
        journal.end()
    }
}
