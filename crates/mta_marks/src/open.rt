//! The marks on a disk: opened whatever a crash has left of them, asked, and one more appended.
//!
//! In comes a disk; `Journal::open` syncs it and gives the bodies, `replay` takes them up as marks, and where the
//! second area is current its record is moved into the first (`settle`). Out go the marks, or the disk and the reason:
//! no marks from some place on, the disk failed, memory. A disk of at most nine octets, and one of one area without
//! records, have no marks, and become a journal of two areas.
//!
//! From the first sync on a crash leaves the same marks, and at any moment of `add` these or these and the new one.

ghost use Rattle.std.specs.Prelude.{◌≡◌, ◌⊎◌, IfErr, IfOk, IsErrOf};
ghost use Rattle.mta_journal.specs.Appending.{Appends};
ghost use Rattle.mta_journal.specs.Shown.{IsPlain};
ghost use Rattle.mta_marks.specs.Marks.{IsMark, body_of};
ghost use Rattle.mta_marks.specs.Opening.{HasFound, HasNotOpened, HasOpened, why_of_settle};

use crate::mark::{Mark, Standing};
use crate::replay::replay;
use crate::standings::Standings;
use crate::writing::body_of;
use mta_ber::Memory;
use mta_edge::Disk;
use mta_journal::{AppendFault, Journal, OpenFault, OpenWhy, Opened};
use std::alloc::Global;
use std::marker::Model;

/// The marks on one disk.
#[derive(Drop)]
pub struct Marks<E: Disk + Drop> {
    alloc: Global,
    journal: Journal<E>,
    standings: Standings,
}

impl<E: Disk + Drop> Model for Marks<E> {
    ghost use Rattle.mta_marks.specs.Opening.{Shown};

    ghost Value = { Shown E };

    ghost view = { λ m. record { journal = m.journal; entries = m.standings } };
}

/// A refusal, which hands the disk back.
#[derive(Drop)]
pub struct MarksFault<E: Disk + Drop> {
    pub disk: E,
    pub why: OpenWhy,
}

/// The disk behind a mark that was appended, or why it was not.
#[derive(Drop)]
pub struct Added<E: Disk + Drop> {
    pub disk: E,
    pub outcome: Result<(), AppendFault>,
}

// The journal on a disk, and what became of the entries by its marks.
#[derive(Drop)]
struct Found<E: Disk + Drop> {
    journal: Journal<E>,
    standings: Standings,
}

// Why a journal that was found was not settled: of the other faults none comes.
fn why_of_settle(fault: AppendFault) -> OpenWhy
    ensures { result ≡ why_of_settle fault }
{
    match fault {
        AppendFault::Disk => OpenWhy::Disk,
        AppendFault::Full { .. } | AppendFault::Ended | AppendFault::Memory => OpenWhy::Memory,
    }
}

// Finds the marks on a disk that a crash may have left.
fn find<E: Disk + Drop>(alloc: Global, disk: E) -> Result<Found<E>, MarksFault<E>>
    ensures found { IfOk result (λ f. HasFound E.model disk f.journal f.standings) }
    ensures refused { IfErr result (λ e. HasNotOpened E.model disk e.disk e.why) }
{
    let Opened {
        journal,
        first,
        bodies,
        synced: _,
    } = match Journal::open(alloc, disk) {
        Ok(opened) => opened,
        Err(OpenFault { disk, why }) => return Err(MarksFault { disk, why }),
    };
    match replay(alloc, first, bodies) {
        Ok(standings) => Ok(Found { journal, standings }),
        Err(why) => Err(MarksFault {
            disk: journal.end(),
            why,
        }),
    }
}

// Appends the body of a mark.
fn append<E: Disk + Drop>(
    alloc: Global,
    journal: &mut Journal<E>,
    mark: &Mark,
) -> Result<(), AppendFault>
    requires plain { IsPlain journal.old.first }
    requires mark { IsMark mark.now }
    ensures { IsErrOf result AppendFault.Memory × (journal.new ≡ journal.old)
        ⊎ Appends E.model (body_of mark.now) journal.old journal.new result }
{
    match body_of(alloc, mark) {
        Ok(body) => journal.append(body.as_slice()),
        Err(_) => Err(AppendFault::Memory),
    }
}

impl<E: Disk + Drop> Marks<E> {
    ghost use Rattle.std.specs.Prelude.{◌≡◌, ◌<◌, ◌^◌, List, length, IfOk};
    ghost use Rattle.mta_journal.specs.Shown.{IsPlain};
    ghost use Rattle.mta_marks.specs.declared.mark.Mark.{Mark as MarkValue};
    ghost use Rattle.mta_marks.specs.Marks.{IsMark, IsPossible, entry_octets};
    ghost use Rattle.mta_marks.specs.Opening.{Adds, IsHeld};
    ghost use Rattle.mta_marks.specs.Standings.{look};

    /// Opens the marks on this disk, whatever a crash has left of them.
    ///
    /// # Errors
    /// `NotSpool` exactly where the disk has more than nine octets and stands for no marks: it is no journal, which
    /// shows at that place, or that is the first open gate whose body is that of no mark which is possible behind those
    /// before it. `Disk` only where the disk failed; `Memory`.
    pub fn open(alloc: Global, disk: E) -> Result<Marks<E>, MarksFault<E>>
        ensures opened { IfOk result (λ m. HasOpened E.model disk m) }
        ensures refused { IfErr result (λ e. HasNotOpened E.model disk e.disk e.why) }
    {
        let Found {
            mut journal,
            standings,
        } = match find(alloc, disk) {
            Ok(found) => found,
            Err(fault) => return Err(fault),
        };
        match journal.settle() {
            Ok(()) => Ok(Marks {
                alloc,
                journal,
                standings,
            }),
            Err(fault) => Err(MarksFault {
                disk: journal.end(),
                why: why_of_settle(fault),
            }),
        }
    }

    /// What became of an entry.
    pub fn standing(&self, mailbox: &[u8], number: u32) -> Result<Standing, Memory>
        requires { length mailbox.now < 2 ^ 32 }
        ensures { IfOk result (λ s. s ≡ look self.now.entries (entry_octets mailbox.now number)) }
    {
        self.standings.get(self.alloc, mailbox, number)
    }

    /// Appends a mark that is possible, and gives the disk back.
    ///
    /// # Errors
    /// `Full` exactly where the record would pass the limit of a journal, `Disk` only where the disk failed, `Memory`
    /// before the disk is called. After all but `Disk` the disk is as it was.
    pub fn add(self, mark: &Mark) -> Added<E>
        requires plain { IsPlain self.journal.first }
        requires mark { IsMark mark.now }
        ensures { (marks : List MarkValue) → IsHeld E.model self marks → IsPossible marks mark.now
            → Adds E.model marks mark.now self result.disk result.outcome }
    {
        let Marks {
            alloc,
            mut journal,
            standings: _,
        } = self;
        let outcome = append(alloc, &mut journal, mark);
        Added {
            disk: journal.end(),
            outcome,
        }
    }

    /// The disk.
    pub fn end(self) -> E
        ensures { result ≡ self.journal.disk }
    {
        let Marks {
            alloc: _,
            journal,
            standings: _,
        } = self;
        journal.end()
    }
}
