//! Replaying the bodies of a journal of marks: what became of each entry by them.
//!
//! In come the bodies and the offset of the first one's gate. Each is read once as a mark, which is taken up where it
//! is possible behind those before it, and freed then. Out goes what became of the entries, or the place of the first
//! body that is that of no possible mark, or want of memory. The disk is not called.

ghost use Rattle.std.specs.Prelude.{◌≡◌, ◌<◌, ◌+◌, ◌^◌, length, IfErr, IfOk};
ghost use Rattle.mta_journal.specs.Bodies.{records};
ghost use Rattle.mta_marks.specs.Marks.{IsMark};
ghost use Rattle.mta_marks.specs.Replaying.{HasReplayed, HasStopped, HasTaken, HasTakenMark, open_why};

use crate::mark::{Mark, allows};
use crate::reading::mark_of;
use crate::standings::Standings;
use mta_ber::{Memory, Octets};
use mta_journal::{OpenWhy, Rest};
use std::alloc::Global;

/// Why a body was not taken up.
#[derive(Clone, Copy)]
pub(crate) enum NotTaken {
    /// It is that of no mark which is possible there.
    Impossible,
    /// Memory was refused.
    Memory,
}

impl From<Memory> for NotTaken {
    ghost use Rattle.std.specs.Prelude.{◌≡◌};
    ghost use Rattle.mta_marks.specs.declared.replay.NotTaken.TheVariants as Whys;

    ghost from_gives = { λ _ e. e ≡ Whys.Memory };

    fn from(_: Memory) -> NotTaken {
        NotTaken::Memory
    }
}

// Takes up a mark where it is possible.
fn take_mark(alloc: Global, standings: &mut Standings, mark: &Mark) -> Result<(), NotTaken>
    requires { IsMark mark.now }
    ensures { HasTakenMark mark.now standings.old standings.new result }
{
    let standing = standings.get(alloc, mark.mailbox.as_slice(), mark.number)?;
    if !allows(standing, mark.kind) {
        return Err(NotTaken::Impossible);
    }
    standings.add(alloc, mark)?;
    Ok(())
}

// Takes up the mark of a body, where it has one that is possible.
fn take_up(alloc: Global, standings: &mut Standings, body: &[u8]) -> Result<(), NotTaken>
    ensures { HasTaken body.now standings.old standings.new result }
{
    match mark_of(alloc, body)? {
        Some(mark) => take_mark(alloc, standings, &mark),
        None => Err(NotTaken::Impossible),
    }
}

// Why a body was not taken up whose gate is at this offset.
fn open_why(why: NotTaken, at: u64) -> OpenWhy
    ensures { result ≡ open_why why at }
{
    match why {
        NotTaken::Impossible => OpenWhy::NotSpool { at },
        NotTaken::Memory => OpenWhy::Memory,
    }
}

/// What became of the entries by the marks of these bodies, whose records stand from the gate at `first` on, or the
/// offset of the gate of the first body that is that of no possible mark.
#[tactic(auto, using(crate::proofs::Replays::way_ended))]
pub(crate) fn replay(alloc: Global, first: u64, bodies: Vec<Octets>) -> Result<Standings, OpenWhy>
    requires { first + length (records bodies.items) + 1 < 2 ^ 64 }
    ensures replayed { IfOk result (HasReplayed bodies.items) }
    ensures stopped { IfErr result (HasStopped first bodies.items) }
{
    let mut standings = Standings::new(alloc);
    let mut at = first;
    let mut rest = Rest::new(bodies);
    while let Some(body) = rest.next() {
        match take_up(alloc, &mut standings, body.as_slice()) {
            Ok(()) => at += body.len() as u64 + 5,
            Err(why) => return Err(open_why(why, at)),
        }
    }
    Ok(standings)
}
