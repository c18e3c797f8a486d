//! Replaying the bodies of a journal: the state in memory after them.
//!
//! In come the bodies and the offset of the first one's gate. Each body is read as a step (`read_record`), which is
//! taken up where it is possible after those before it, as a step that is made is, without the journal. It is freed
//! then, and its place in the list goes too (`Rest`). Out goes the state, or the place of the first body that is no
//! such step, or want of memory. The disk is not called.

ghost use Rattle.std.specs.Prelude.{◌≡◌, ◌<◌, ◌+◌, ◌^◌, length, IfErr, IfOk};
ghost use Rattle.mta_journal.specs.Bodies.{AreWithin, longest_first, records};
ghost use Rattle.mta_state.specs.Kept.{state_of};
ghost use Rattle.mta_table_rules.specs.Text.{format_of, text_of};
ghost use Rattle.mta_replay.specs.Sound.{IsSound};
ghost use Rattle.mta_spool.specs.Replaying.{HasReplayed, HasStopped, HasTaken, open_why};

use mta_ber::Octets;
use mta_journal::{OpenWhy, Rest};
use mta_records::{RecordFault, read_record};
use mta_replay::{NotMade, Replay};
use mta_table_rules::TableRules;
use std::alloc::Global;

// Takes up the step of a body, where it has one that is possible.
fn take_up(replay: &mut Replay<TableRules>, alloc: Global, body: &[u8]) -> Result<(), NotMade>
    requires fits { length body.now < 2 ^ 32 }
    requires sound { IsSound format_of text_of replay.old.kept replay.old.rules }
    ensures taken { HasTaken body.now (state_of replay.old.kept) (state_of replay.new.kept) result }
    ensures sound { IsSound format_of text_of replay.new.kept replay.new.rules }
{
    match read_record(alloc, body) {
        Ok(step) => replay.add(alloc, step),
        Err(RecordFault::BadRecord { .. }) => Err(NotMade::Impossible),
        Err(RecordFault::Memory) => Err(NotMade::Memory),
    }
}

// Why a body was not taken up whose gate is at this offset.
fn open_why(why: NotMade, at: u64) -> OpenWhy
    ensures { result ≡ open_why why at }
{
    match why {
        NotMade::Impossible => OpenWhy::NotSpool { at },
        NotMade::Memory => OpenWhy::Memory,
    }
}

/// The state after the steps of these bodies, whose records stand from the gate at `first` on, or the offset of the
/// gate of the first body that is that of no possible step. Each body is freed once its step is taken up.
pub fn replay(alloc: Global, first: u64, bodies: Vec<Octets>) -> Result<Replay<TableRules>, OpenWhy>
    requires short { AreWithin longest_first bodies.items }
    requires fits { first + length (records bodies.items) + 1 < 2 ^ 64 }
    ensures replayed { IfOk result (λ r. HasReplayed bodies.items (state_of r.kept)) }
    ensures stopped { IfErr result (HasStopped first bodies.items) }
    ensures sound { IfOk result (λ r. IsSound format_of text_of r.kept r.rules) }
{
    let mut replay = Replay::new(alloc);
    let mut at = first;
    let mut rest = Rest::new(bodies);
    while let Some(body) = rest.next() {
        match take_up(&mut replay, alloc, body.as_slice()) {
            Ok(()) => at += body.len() as u64 + 5,
            Err(why) => {
                replay.discard();
                return Err(open_why(why, at));
            }
        }
    }
    Ok(replay)
}
