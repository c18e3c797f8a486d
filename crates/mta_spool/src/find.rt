//! What stands on a disk: its journal, and the state in memory after its steps.
//!
//! In comes a disk; `Journal::open` syncs and gives the bodies of the records, and `replay` takes up their steps. A
//! second area has one record, which is to be a snapshot. Out go the journal and the state, or the disk and the reason:
//! no spool from some place on, the disk failed, memory. But for the beginning of two areas on a disk without records
//! nothing is written.

ghost use Rattle.std.specs.Prelude.{◌≡◌, ◌↔◌, IfErr, IfOk, IsTrue};
ghost use Rattle.mta_state.specs.Kept.{state_of};
ghost use Rattle.mta_table_rules.specs.Text.{format_of, text_of};
ghost use Rattle.mta_replay.specs.Sound.{IsSound};
ghost use Rattle.mta_spool.specs.Finding.{BeginsAsSnapshot, IsOneSnapshot, MayStand};
ghost use Rattle.mta_spool.specs.GoingOn.{HasFound};
ghost use Rattle.mta_spool.specs.Opening.{HasRefused};

use crate::replay::replay;
use mta_ber::Octets;
use mta_edge::Disk;
use mta_journal::{Journal, OpenFault, OpenWhy, Opened};
use mta_records::RecordKind;
use mta_replay::Replay;
use mta_table_rules::TableRules;
use std::alloc::Global;
use std::snapshot::Snapshot;

/// The journal that was found on a disk, and the state after its steps; and for clauses alone its bodies, and the disk
/// as the first sync left it.
#[derive(Drop)]
pub(crate) struct Found<D: Disk + Drop> {
    pub journal: Journal<D>,
    pub replay: Replay<TableRules>,
    pub bodies: Snapshot<Vec<Octets>>,
    pub synced: Snapshot<D>,
}

/// The disk on which no spool was found, and why.
#[derive(Drop)]
pub(crate) struct NotFound<D: Disk + Drop> {
    pub disk: D,
    pub why: OpenWhy,
}

// Whether the body begins as that of a snapshot does.
fn is_snapshot(body: &[u8]) -> bool
    ensures { IsTrue result ↔ BeginsAsSnapshot body.now }
{
    match body {
        [] => false,
        [kind, ..] => *kind == RecordKind::Snapshot.octet(),
    }
}

// Whether there is one body, which begins as that of a snapshot does.
fn is_one_snapshot(bodies: &[Octets]) -> bool
    ensures { IsTrue result ↔ IsOneSnapshot bodies.now }
{
    match bodies {
        [body] => is_snapshot(body.as_slice()),
        _ => false,
    }
}

/// Whether these bodies may stand from this gate on: in a second area a snapshot alone.
pub fn may_stand(first: u64, bodies: &[Octets]) -> bool
    ensures { IsTrue result ↔ MayStand first bodies.now }
{
    first == 8 || first == 23 || is_one_snapshot(bodies)
}

/// Finds the journal on a disk, and the state after its steps.
pub(crate) fn find<D: Disk + Drop>(alloc: Global, disk: D) -> Result<Found<D>, NotFound<D>>
    ensures found { IfOk result (λ f. HasFound D.model disk f.journal (state_of f.replay.kept) f.bodies.value.items
        f.synced.value) }
    ensures sound { IfOk result (λ f. IsSound format_of text_of f.replay.kept f.replay.rules) }
    ensures refused { IfErr result (λ e. HasRefused D.model disk e.disk e.why) }
{
    let Opened {
        journal,
        first,
        bodies,
        synced,
    } = match Journal::open(alloc, disk) {
        Ok(opened) => opened,
        Err(OpenFault { disk, why }) => return Err(NotFound { disk, why }),
    };
    if !may_stand(first, bodies.as_slice()) {
        return Err(NotFound {
            disk: journal.end(),
            why: OpenWhy::NotSpool { at: first },
        });
    }
    let found = Snapshot::of(&bodies);
    match replay(alloc, first, bodies) {
        Ok(replay) => Ok(Found {
            journal,
            replay,
            bodies: found,
            synced,
        }),
        Err(why) => Err(NotFound {
            disk: journal.end(),
            why,
        }),
    }
}
