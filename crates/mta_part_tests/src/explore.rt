//! A walk at random through worlds of small bounds, with losses, stops, crashes, stale links and several live
//! ones, that checks after each step that the ends agree. The words are those of the definitions and none
//! of their proof.

use crate::explore_ends::{
    answer, answers, is_partial_of, next_unit, octets_with, taken, takes_piece,
};
use crate::explore_link::{Link, RecvStage, SendStage, Unit};
use crate::explore_world::{Outcome, World};
use mta_lane_recv::Last;
use mta_lane_send::SendState;
use std::alloc::{AllocError, Global};
use std::test::Fail;

/// Numbers from a seed (xorshift).
#[derive(Drop)]
struct Numbers(u64);

impl Numbers {
    fn next(&mut self, below: u32) -> u32 {
        let mut x = self.0;
        x ^= x << 13;
        x ^= x >> 7;
        x ^= x << 17;
        self.0 = x;
        if below == 0 {
            0
        } else {
            ((x >> 20) % below as u64) as u32
        }
    }
}

fn stage_on_link(state: SendState) -> SendStage {
    match state {
        SendState::Idle { .. } => SendStage::Quiet,
        _ => SendStage::Opened,
    }
}

/// The initiator opens a link.
fn open(world: &mut World, alloc: Global) -> Result<(), AllocError> {
    let number = world.links.len();
    if number >= LINKS {
        return Ok(());
    }
    let mut link = Link::new(alloc, world.sender_opens, !world.sender_opens);
    link.send = stage_on_link(world.state);
    world.links.push(link)?;
    if world.sender_opens {
        world.send_link = Some(number);
    } else {
        world.recv_link = Some(number);
    }
    Ok(())
}

/// The other end takes the Open of a link.
fn join(world: &mut World, place: usize) {
    let stage = stage_on_link(world.state);
    let Some(link) = world.links.get_mut(place) else {
        return;
    };
    if world.sender_opens {
        if !link.recv_joined {
            link.recv_joined = true;
            world.recv_link = Some(place);
        }
    } else if !link.send_joined {
        link.send_joined = true;
        link.accepted = true;
        link.send = stage;
        world.send_link = Some(place);
    }
}

/// The sending end puts its next unit on its newest link.
fn send(world: &mut World, place: usize) -> Result<(), AllocError> {
    if world.send_link != Some(place) {
        return Ok(());
    }
    let Some(link) = world.links.get(place) else {
        return Ok(());
    };
    if !link.sender_uses() || !link.accepted {
        return Ok(());
    }
    let Some((unit, stage)) = next_unit(world, link) else {
        return Ok(());
    };
    if let Some(link) = world.links.get_mut(place) {
        link.up.put(unit)?;
        link.send = stage;
        link.heard = None;
    }
    Ok(())
}

/// The sending end gets a unit, on any link.
fn hear(world: &mut World, place: usize) {
    let Some(link) = world.links.get_mut(place) else {
        return;
    };
    if !link.sender_uses() {
        return;
    }
    let Some(unit) = link.down.front() else {
        return;
    };
    link.down.take();
    link.heard = Some(unit);
    match (unit, link.send) {
        (Unit::Accept, _) => link.accepted = true,
        (
            Unit::ResumeAck { activity, number },
            SendStage::ResumePut {
                activity: asked,
                number: behind,
            },
        ) if activity == asked && number == behind => {
            link.send = SendStage::Next {
                activity,
                put: number,
            };
        }
        _ => {}
    }
}

/// The sending half makes a step on its newest link.
fn make(world: &mut World, place: usize, pick: u32) -> Result<(), AllocError> {
    if world.send_link != Some(place) {
        return Ok(());
    }
    let Some(link) = world.links.get(place) else {
        return Ok(());
    };
    if !link.sender_uses() {
        return Ok(());
    }
    let stage = link.send;
    let heard = link.heard;
    let answered = match heard {
        Some(unit) if pick % 4 > 0 => answer(world, stage, unit)?,
        _ => false,
    };
    let after = if answered {
        stage_behind(world.state, stage)
    } else {
        begin_or_end(world, stage)?
    };
    if let Some(link) = world.links.get_mut(place) {
        link.send = after;
        link.heard = None;
    }
    Ok(())
}

/// The stage behind an answer: once the activity is settled, none is under way.
fn stage_behind(state: SendState, stage: SendStage) -> SendStage {
    match state {
        SendState::Idle { .. } => SendStage::Quiet,
        _ => stage,
    }
}

/// Starts an activity, or goes to Ending.
fn begin_or_end(world: &mut World, stage: SendStage) -> Result<SendStage, AllocError> {
    let state = world.state;
    match state {
        SendState::Idle { last } => {
            if last >= ACTIVITIES || !matches!(stage, SendStage::Quiet) {
                return Ok(stage);
            }
            let activity = last.saturating_add(1);
            world.begin(activity)?;
            Ok(SendStage::Started { activity })
        }
        SendState::Sending {
            activity,
            confirmed,
        } => {
            world.state = SendState::Ending {
                activity,
                confirmed,
            };
            Ok(stage)
        }
        _ => Ok(stage),
    }
}

/// Any worker gives the activity up.
fn give_up(world: &mut World) {
    if let SendState::Sending { activity, .. } = world.state {
        world.state = SendState::Dropping { activity };
        if let Some(fate) = world.fate() {
            fate.given_up = true;
        }
    }
}

/// The receiving end takes a unit, on any link.
fn take(world: &mut World, place: usize) {
    let Some(link) = world.links.get(place) else {
        return;
    };
    if !link.receiver_uses() {
        return;
    }
    let Some(unit) = link.up.front() else {
        return;
    };
    let Some(stage) = taken(world, link.recv, unit) else {
        return;
    };
    if let Some(link) = world.links.get_mut(place) {
        link.up.take();
        link.recv = stage;
        if let Unit::Start { .. } = unit {
            link.from = 0;
        }
    }
}

/// The receiving end puts Accept or an answer, on any link.
fn put(world: &mut World, place: usize, pick: u32) -> Result<(), AllocError> {
    let Some(link) = world.links.get(place) else {
        return Ok(());
    };
    if !link.receiver_uses() {
        return Ok(());
    }
    let accept = Some((Unit::Accept, link.recv));
    let answer = if world.sender_opens && !link.accepted {
        accept
    } else {
        answers(world, link, pick)
    };
    let Some((unit, stage)) = answer else {
        return Ok(());
    };
    let confirming = matches!(
        unit,
        Unit::SyncAck { .. } | Unit::ResumeAck { .. } | Unit::DiscardAck { .. }
    );
    if !world.sender_opens && confirming && world.recv_link != Some(place) {
        return Ok(());
    }
    if let Some(link) = world.links.get_mut(place) {
        link.down.put(unit)?;
        link.recv = stage;
        if let Unit::ResumeAck { number, .. } = unit {
            link.from = number;
        }
    }
    Ok(())
}

/// The receiving half makes a step on its newest link, or finds octets faulty.
fn secure(world: &mut World, place: usize) -> Result<(), AllocError> {
    if world.recv_link != Some(place) {
        return Ok(());
    }
    let Some(link) = world.links.get(place) else {
        return Ok(());
    };
    if !link.receiver_uses() {
        return Ok(());
    }
    let after = match link.recv {
        RecvStage::Synced {
            activity,
            number,
            token,
        } if takes_piece(world, activity, number) => {
            if world.is_bad(activity) && world.is_bad(activity.wrapping_add(16)) {
                RecvStage::Found { activity }
            } else {
                keep(world, activity, number, token)?;
                RecvStage::Next { activity, number }
            }
        }
        RecvStage::Ended {
            activity,
            number,
            token,
        } if takes_piece(world, activity, number) => {
            if world.is_bad(activity) {
                RecvStage::Found { activity }
            } else {
                let stage = link.recv;
                let octets = octets_with(world, number, token);
                world.completed.push((activity, octets))?;
                world.high = activity;
                world.last = Last::Done { activity };
                world.pieces.clear();
                stage
            }
        }
        RecvStage::Discards { activity } | RecvStage::Found { activity }
            if is_partial_of(world.last, activity) => {
            let stage = link.recv;
            world.last = Last::None;
            world.pieces.clear();
            stage
        }
        _ => return Ok(()),
    };
    if let Some(link) = world.links.get_mut(place) {
        link.recv = after;
    }
    Ok(())
}

/// A piece is durable, and none above it.
fn keep(world: &mut World, activity: u32, number: u32, token: u64) -> Result<(), AllocError> {
    world.pieces.truncate(number.saturating_sub(1) as usize);
    world.pieces.push(token)?;
    world.high = activity;
    world.last = Last::Partial {
        activity,
        pieces: number,
    };
    Ok(())
}

/// A suffix of a queue is lost, or an end stops using a link, or crashes.
fn fail(world: &mut World, place: usize, pick: u32) {
    if pick < 2 {
        for link in world.links.iter_mut() {
            if pick == 0 {
                link.send_stopped = true;
            } else {
                link.recv_stopped = true;
            }
        }
        return;
    }
    let Some(link) = world.links.get_mut(place) else {
        return;
    };
    match pick {
        2 => link.send_stopped = true,
        3 => link.recv_stopped = true,
        4 | 5 => link.up.lose((pick - 4) as usize),
        6 | 7 => link.down.lose((pick - 6) as usize),
        _ => {}
    }
}

/// A link: mostly the one that is the end's newest.
fn some_link(world: &World, newest: Option<usize>, numbers: &mut Numbers) -> usize {
    let any = numbers.next(world.links.len().min(LINKS) as u32) as usize;
    match newest {
        Some(place) if numbers.next(8) > 0 => place,
        _ => any,
    }
}

fn step(world: &mut World, alloc: Global, numbers: &mut Numbers) -> Result<(), AllocError> {
    let above = some_link(world, world.send_link, numbers);
    let below = some_link(world, world.recv_link, numbers);
    let pick = numbers.next(16);
    match numbers.next(100) {
        0 => open(world, alloc)?,
        1..4 => join(world, below.max(above)),
        4..24 => send(world, above)?,
        24..39 => hear(world, above),
        39..52 => make(world, above, pick)?,
        52 if pick < 6 => give_up(world),
        53..74 => take(world, below),
        74..87 => put(world, below, pick)?,
        87..99 => secure(world, below)?,
        99 => fail(world, below, pick),
        _ => {}
    }
    Ok(())
}

const LINKS: usize = 5;

const ACTIVITIES: u32 = 4;

/// How often each outcome came about.
#[derive(Drop)]
struct Seen {
    sent: u32,
    dropped: u32,
    refused: u32,
    denied: u32,
    given_up: u32,
}

impl Seen {
    fn count(&mut self, world: &World) {
        for fate in &world.fates {
            match fate.outcome {
                Outcome::Sent => self.sent = self.sent.saturating_add(1),
                Outcome::Dropped => self.dropped = self.dropped.saturating_add(1),
                Outcome::Refused => self.refused = self.refused.saturating_add(1),
                Outcome::Denied => self.denied = self.denied.saturating_add(1),
                Outcome::Unsettled => {}
            }
            if fate.given_up {
                self.given_up = self.given_up.saturating_add(1);
            }
        }
    }
}

#[test]
fn ends_agree_on_every_walk(rt: HostRuntime) -> Result<(), Fail> {
    let mut seen = Seen {
        sent: 0,
        dropped: 0,
        refused: 0,
        denied: 0,
        given_up: 0,
    };
    for seed in 1..1001u64 {
        let mut numbers = Numbers(seed.wrapping_mul(0x9e37_79b9_7f4a_7c15));
        let sender_opens = seed % 2 == 0;
        let window = numbers.next(2).saturating_add(1);
        let bad = numbers.next(u32::MAX);
        let mut world = World::new(rt.alloc(), sender_opens, window, bad);
        for _ in 0..500 {
            step(&mut world, rt.alloc(), &mut numbers)?;
            assert!(rt; world.is_in_step(), "seed {seed}");
            assert!(rt; world.is_settled_so(), "seed {seed}");
        }
        seen.count(&world);
    }
    let Seen {
        sent,
        dropped,
        refused,
        denied,
        given_up,
    } = seen;
    assert!(rt;
        sent > 100 && dropped > 100 && refused > 100 && denied > 0 && given_up > 20,
        "{sent} {dropped} {refused} {denied} {given_up}"
    );
    Ok(())
}
