//! A drill: two agents in one process, whose link is broken on purpose.
//!
//! In come how many messages are passed, and two empty disks in memory. Rounds of 1,000 messages, of which the last may
//! have fewer, are passed by two fresh agents each; the agents of the last one stand on the disks that were handed in.
//! Out go the text and those disks, or that memory is wanted: nothing else refuses a drill.

ghost use Rattle.std.specs.Prelude.{◌≡◌, ◌≤◌, ◌<◌, ◌*◌, ◌^◌, [], IfOk};
ghost use Rattle.mta_drill.specs.Rounds.{HasDrilled, IsWhole, round_size};

use crate::round::{Round, run_round};
use mta_ber::{Memory, Octets};
use mta_drill_text::{Counts, drill_text};
use mta_edge::SafeDisk;
use std::alloc::Global;

// The messages of a round but the last.
const ROUND: u32 = 1000;

/// What a drill left: its text, and the disks of the last round.
#[derive(Drop)]
pub struct Drilled {
    pub text: Octets,
    pub first: SafeDisk,
    pub second: SafeDisk,
}

// An empty disk.
fn empty_disk(alloc: Global) -> SafeDisk
    ensures { result.octets ≡ [] }
{
    SafeDisk::new(alloc, Octets::new(alloc))
}

// The rounds but the last, of 1,000 messages each: what they come to.
fn earlier(alloc: Global, rounds: u32) -> Result<Counts, Memory>
    requires fits { rounds * round_size < 2 ^ 32 }
    ensures { IfOk result (λ c. IsWhole c 0 (rounds * round_size)) }
{
    let mut counts = Counts::new();
    for place in 0..rounds {
        let Round { counts: more, .. } = run_round(
            alloc,
            place * ROUND,
            ROUND,
            empty_disk(alloc),
            empty_disk(alloc),
        )?;
        counts = counts.with(&more);
    }
    Ok(counts)
}

/// Passes so many messages, at least one, from one agent to another.
pub fn drill(
    alloc: Global,
    messages: u32,
    first: SafeDisk,
    second: SafeDisk,
) -> Result<Drilled, Memory>
    requires some { 1 ≤ messages }
    requires first { first.octets ≡ [] }
    requires second { second.octets ≡ [] }
    ensures { IfOk result (HasDrilled messages) }
{
    let rounds = (messages - 1) / ROUND;
    let counts = earlier(alloc, rounds)?;
    let before = rounds * ROUND;
    let Round {
        counts: more,
        first,
        second,
    } = run_round(alloc, before, messages - before, first, second)?;
    let text = drill_text(alloc, messages, &counts.with(&more))?;
    Ok(Drilled {
        text,
        first,
        second,
    })
}
