//! A round of a drill: two fresh agents, of which one sends its messages to the other.
//!
//! In come two empty disks, how many messages were before, and how many are sent. The first agent takes them all; then
//! come sessions, one behind the other, until the lane is closed; behind each both agents do what is due. At the end
//! both spools are ended and opened again, and what they hold is counted. Out go the disks and the counts, or that
//! memory is wanted.

ghost use Rattle.std.specs.Prelude.{◌≡◌, ◌≢◌, ◌≤◌, ◌<◌, ◌+◌, ◌^◌, ℕ, IfOk, List, [], Ok, OnOk, false, true};
ghost use Rattle.mta_apdu.specs.Apdus.{ApduValue, apdu_of};
ghost use Rattle.mta_histories.specs.History.{after};
ghost use Rattle.mta_images.specs.Image.{StandsFor};
ghost use Rattle.mta_machine.specs.Apdu.{IsApdu};
ghost use Rattle.mta_records.specs.declared.step.Step.{Step};
ghost use Rattle.mta_records.specs.declared.step.Step.TheVariants as steps;
ghost use Rattle.mta_tables.specs.Tables.{TablesValue, tables_of as tables_in};
ghost use Rattle.mta_drill_answer_laws.specs.Answers.{Works};
ghost use Rattle.mta_drill.specs.Calls.{HasMade, HasNothing, HasSettled, HasTaken, IsOpenable, IsWant, begun};
ghost use Rattle.mta_drill.specs.Rounds.{IsPassed, round_size};
ghost use Rattle.mta_drill.specs.Worked.{AreBreaksOf, HasWorked, IsAgain, WasGot, WasSent};

use crate::agent::{Agent, check, clock};
use crate::breaks::Breaks;
use crate::counts::counted;
use crate::message::message_of;
use crate::session::session;
use crate::tables::{first_text, peer, second_text, tables_of};
use mta_apdu::Apdu;
use mta_ber::{Memory, ReadFault};
use mta_drill_text::Counts;
use mta_edge::SafeDisk;
use mta_spool::{OpenWhy, Spool, SpoolOpen, Turned};
use mta_stations::halt_of;
use std::alloc::Global;

/// What a round left.
#[derive(Drop)]
pub(crate) struct Round {
    pub counts: Counts,
    pub first: SafeDisk,
    pub second: SafeDisk,
}

// That memory is wanted, also for the disk: why a disk of a drill is not opened.
fn want_of(why: OpenWhy) -> Memory
    requires { IsWant why }
{
    match why {
        OpenWhy::Disk | OpenWhy::Memory => Memory,
        OpenWhy::NotSpool { .. } | OpenWhy::Full { .. } => unreachable!(),
    }
}

// Opens the spool on a disk that is empty, or on which one stood.
fn opened(alloc: Global, disk: SafeDisk) -> Result<Agent, Memory>
    requires openable { IsOpenable disk.octets }
    ensures works { IfOk result Works }
    ensures begun { disk.octets ≡ [] → IfOk result (λ s. s.current ≡ begun) }
    ensures again { (found : List Step) → StandsFor disk.octets found → (after found).machine.format ≡ 2
        → IfOk result (λ s. IsAgain found s.current) }
{
    match Spool::open(alloc, disk, clock(alloc)) {
        Ok(spool) => Ok(spool),
        Err(SpoolOpen { why, .. }) => Err(want_of(why)),
    }
}

// Records the tables of a text.
fn give_tables(alloc: Global, spool: &mut Agent, text: &[u8]) -> Result<(), Memory>
    ensures { (t : TablesValue) → tables_in text.now ≡ Ok t → spool.old.current.machine.tables ≡ []
        → Works spool.old → OnOk result (HasMade (steps.Tables text.now) spool.old spool.new) }
{
    let Some(tables) = tables_of(alloc, text)? else {
        return Ok(());
    };
    match spool.set_tables(&tables) {
        Ok(()) => Ok(()),
        Err(fault) => check(halt_of(fault)),
    }
}

// Whether tables were recorded.
fn has_tables(spool: &Agent) -> bool
    ensures some { result ≡ true → spool.now.current.machine.tables ≢ [] }
    ensures none { result ≡ false → spool.now.current.machine.tables ≡ [] }
{
    match spool.tables() {
        Some(_) => true,
        None => false,
    }
}

// Whether octets spell an APDU that may be submitted.
fn is_apdu(alloc: Global, octets: &[u8]) -> Result<bool, Memory>
    ensures only { IfOk result (λ b. b ≡ true → IsApdu octets.now) }
    ensures each { (v : ApduValue) → apdu_of octets.now ≡ Ok v → result ≡ Ok false → ⊥ }
{
    match Apdu::read(alloc, octets) {
        Ok(apdu) => {
            apdu.discard();
            Ok(true)
        }
        Err(ReadFault::Memory) => Err(Memory),
        Err(ReadFault::Bad(_)) => Ok(false),
    }
}

// Takes a message as the next item.
fn accept(alloc: Global, spool: &mut Agent, message: u32) -> Result<(), Memory>
    ensures { (before count : ℕ) → count ≤ round_size → message ≡ before + (count + 1)
        → HasTaken before count spool.old → OnOk result (HasTaken before (count + 1) spool.new) }
{
    if !has_tables(spool) {
        return Ok(());
    }
    let octets = message_of(alloc, message)?;
    if !is_apdu(alloc, octets.as_slice())? {
        return Ok(());
    }
    match spool.accept(octets.as_slice()) {
        Ok(_) => Ok(()),
        Err(fault) => check(halt_of(fault)),
    }
}

// Does what is due. A journal has no room for as many steps as are counted here.
fn settle(spool: &mut Agent) -> Result<(), Memory>
    ensures { Works spool.old → OnOk result (HasSettled spool.old spool.new) }
{
    for _ in 0..u64::MAX {
        match spool.turn() {
            Ok(Turned::Did(step)) => drop(step),
            Ok(Turned::Quiet { .. }) => return Ok(()),
            Err(fault) => return check(halt_of(fault)),
        }
    }
    Err(Memory)
}

// The first agent takes the messages of the round.
fn accept_all(alloc: Global, spool: &mut Agent, before: u32, count: u32) -> Result<(), Memory>
    requires fits { before + count < 2 ^ 32 }
    ensures { count ≤ round_size → HasTaken before 0 spool.old
        → OnOk result (HasTaken before count spool.new) }
{
    for place in 0..count {
        accept(alloc, spool, before + place + 1)?;
    }
    settle(spool)
}

// The first agent, whose spool is new, gets its tables, and takes the messages of the round.
fn prepare_first(alloc: Global, spool: &mut Agent, before: u32, count: u32) -> Result<(), Memory>
    requires fits { before + count < 2 ^ 32 }
    ensures { count ≤ round_size → Works spool.old → spool.old.current ≡ begun
        → OnOk result (HasTaken before count spool.new) }
{
    give_tables(alloc, spool, first_text())?;
    accept_all(alloc, spool, before, count)
}

// The second agent, whose spool is new, gets its tables.
fn prepare_second(alloc: Global, spool: &mut Agent) -> Result<(), Memory>
    ensures { (before : ℕ) → Works spool.old → spool.old.current ≡ begun
        → OnOk result (HasNothing before spool.new) }
{
    give_tables(alloc, spool, second_text())
}

// Sessions until the lane is closed: one or two behind each break, and the last. How often the link was broken.
fn transfer(
    alloc: Global,
    first: &mut Agent,
    second: &mut Agent,
    before: u32,
    count: u32,
) -> Result<u32, Memory>
    requires fits { before + count < 2 ^ 32 }
    ensures { count ≤ round_size → HasTaken before count first.old → HasNothing before second.old
        → IfOk result (λ broken. HasWorked before count broken first.new second.new) }
{
    let mut breaks = Breaks::new(before);
    let Some(peer) = peer(alloc)? else {
        return Ok(0);
    };
    for _sessions in 0..2 * u64::from(count) + 1 {
        let is_closed = session(alloc, first, second, &peer, &mut breaks)?;
        settle(first)?;
        settle(second)?;
        if is_closed {
            return Ok(breaks.made());
        }
    }
    Ok(breaks.made())
}

// Takes the messages and transfers them; how often the link was broken.
fn worked(
    alloc: Global,
    first: &mut Agent,
    second: &mut Agent,
    before: u32,
    count: u32,
) -> Result<u32, Memory>
    requires fits { before + count < 2 ^ 32 }
    ensures { count ≤ round_size → Works first.old → first.old.current ≡ begun → Works second.old
        → second.old.current ≡ begun
        → IfOk result (λ broken. HasWorked before count broken first.new second.new) }
{
    prepare_first(alloc, first, before, count)?;
    prepare_second(alloc, second)?;
    transfer(alloc, first, second, before, count)
}

// Both spools are opened again, and what they hold is counted.
fn reopened(
    alloc: Global,
    first: SafeDisk,
    second: SafeDisk,
    before: u32,
    count: u32,
    broken: u32,
) -> Result<Round, Memory>
    requires fits { before + count < 2 ^ 32 }
    requires first { WasSent first.octets before count }
    requires second { WasGot second.octets before count }
    requires breaks { AreBreaksOf before count broken }
    ensures { IfOk result (IsPassed before count) }
{
    let first = opened(alloc, first)?;
    let second = opened(alloc, second)?;
    let counts = counted(alloc, &first, &second, before, count, broken)?;
    Ok(Round {
        counts,
        first: first.end(),
        second: second.end(),
    })
}

/// Sends so many messages, behind those of earlier rounds, from an agent on the first disk to one on the second.
pub(crate) fn run_round(
    alloc: Global,
    before: u32,
    count: u32,
    first: SafeDisk,
    second: SafeDisk,
) -> Result<Round, Memory>
    requires few { count ≤ round_size }
    requires fits { before + count < 2 ^ 32 }
    requires first { first.octets ≡ [] }
    requires second { second.octets ≡ [] }
    ensures { IfOk result (IsPassed before count) }
{
    let mut sender = opened(alloc, first)?;
    let mut receiver = opened(alloc, second)?;
    let broken = worked(alloc, &mut sender, &mut receiver, before, count)?;
    reopened(alloc, sender.end(), receiver.end(), before, count, broken)
}
