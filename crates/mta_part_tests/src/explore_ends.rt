//! What the two ends of the explored world may do, in the words of their rules.

use crate::explore_link::{Link, RecvStage, SendStage, Unit, came, synced};
use crate::explore_world::{Outcome, World, confirmed_of, last_of, pieces_of, token, with_piece};
use mta_lane_recv::Last;
use mta_lane_send::SendState;
use std::alloc::AllocError;

/// What a sending end puts next on its newest link, and its stage then.
pub fn next_unit(world: &World, link: &Link) -> Option<(Unit, SendStage)> {
    let state = world.state;
    let stage = link.send;
    match stage {
        SendStage::Quiet | SendStage::EndPut { .. } | SendStage::DiscardPut { .. } => None,
        _ => match state {
            SendState::Dropping { activity } => {
                Some((
                    Unit::Discard { activity },
                    SendStage::DiscardPut { activity },
                ))
            }
            SendState::Idle { .. } => None,
            SendState::Sending { confirmed, .. } => next_of(world, stage, confirmed, false),
            SendState::Ending { confirmed, .. } => next_of(world, stage, confirmed, true),
        },
    }
}

/// The same while the activity is neither settled nor given up.
fn next_of(
    world: &World,
    stage: SendStage,
    confirmed: u32,
    ending: bool,
) -> Option<(Unit, SendStage)> {
    match stage {
        SendStage::Opened => Some(first_unit(last_of(world.state), confirmed)),
        SendStage::Started { activity } => {
            Some((
                Unit::Start { activity },
                SendStage::Next { activity, put: 0 },
            ))
        }
        SendStage::Next { activity, put } => next_piece(world, activity, put),
        SendStage::SyncNext { activity, number } => Some((
            Unit::Sync { number },
            SendStage::Next {
                activity,
                put: number,
            },
        )),
        SendStage::LastPut { activity, number } if ending => {
            Some((
                Unit::End { activity },
                SendStage::EndPut { activity, number },
            ))
        }
        _ => None,
    }
}

/// The first unit on a link after a break.
fn first_unit(activity: u32, number: u32) -> (Unit, SendStage) {
    if number == 0 {
        (
            Unit::Discard { activity },
            SendStage::DiscardPut { activity },
        )
    } else {
        (
            Unit::Resume { activity, number },
            SendStage::ResumePut { activity, number },
        )
    }
}

fn next_piece(world: &World, activity: u32, put: u32) -> Option<(Unit, SendStage)> {
    if put >= confirmed_of(world.state).saturating_add(world.window) {
        return None;
    }
    let number = put.saturating_add(1);
    let unit = Unit::Piece {
        token: token(activity, number),
    };
    if number == pieces_of(activity) {
        Some((unit, SendStage::LastPut { activity, number }))
    } else {
        Some((unit, SendStage::SyncNext { activity, number }))
    }
}

/// Makes the step that the unit heard last calls for.
pub fn answer(world: &mut World, stage: SendStage, heard: Unit) -> Result<bool, AllocError> {
    let live = last_of(world.state);
    let idle = matches!(world.state, SendState::Idle { .. });
    match (heard, world.state) {
        (
            Unit::SyncAck { number },
            SendState::Sending {
                activity,
                confirmed,
            },
        ) if confirmed < number && number <= synced(stage) => {
            world.state = SendState::Sending {
                activity,
                confirmed: number,
            };
        }
        (
            Unit::SyncAck { number },
            SendState::Ending {
                activity,
                confirmed,
            },
        ) if confirmed < number && number <= synced(stage) => {
            world.state = SendState::Ending {
                activity,
                confirmed: number,
            };
        }
        (Unit::EndAck { activity }, SendState::Ending { .. }) if activity == live => world.settle(
            Outcome::Sent,
        )?,
        (Unit::Completed, SendState::Ending { .. })
            if matches!(stage, SendStage::DiscardPut { .. }) => { world.settle(Outcome::Sent)? }
        (Unit::DiscardAck { activity }, _) if !idle && activity == live => world.settle(
            Outcome::Dropped,
        )?,
        (Unit::Exception, _) if !idle => world.settle(Outcome::Refused)?,
        (Unit::Unrecognized, _) if !idle => world.settle(Outcome::Denied)?,
        _ => return Ok(false),
    }
    Ok(true)
}

/// The receiving end's stage after it took a unit, where the unit is allowed.
pub fn taken(world: &World, stage: RecvStage, unit: Unit) -> Option<RecvStage> {
    match (unit, stage) {
        (Unit::Accept, _) => Some(stage),
        (Unit::Start { activity }, RecvStage::Free | RecvStage::Skips { .. }) => {
            let partial = matches!(world.last, Last::Partial { .. });
            (world.high < activity && !partial).then_some(RecvStage::Next {
                activity,
                number: 0,
            })
        }
        (
            Unit::Piece { token },
            RecvStage::Next { activity, number }
            | RecvStage::Synced {
                activity,
                number,
                ..
            },
        ) => {
            let number = number.saturating_add(1);
            Some(RecvStage::Held {
                activity,
                number,
                token,
            })
        }
        (
            Unit::Sync { number: sync },
            RecvStage::Held {
                activity,
                number,
                token,
            },
        ) => {
            (sync == number).then_some(RecvStage::Synced {
                activity,
                number,
                token,
            })
        }
        (
            Unit::End { activity: end },
            RecvStage::Held {
                activity,
                number,
                token,
            },
        ) => {
            (end == activity).then_some(RecvStage::Ended {
                activity,
                number,
                token,
            })
        }
        (Unit::Resume { activity, number }, RecvStage::Free) => {
            may_resume(world.last, activity, number).then_some(RecvStage::Asked {
                activity,
                number,
            })
        }
        (Unit::Discard { activity }, RecvStage::Free) => Some(RecvStage::Discards { activity }),
        (
            Unit::Discard { activity: given },
            RecvStage::Next { activity, .. }
            | RecvStage::Held { activity, .. }
            | RecvStage::Synced { activity, .. },
        ) => { (given == activity).then_some(RecvStage::Discards { activity }) }
        (Unit::Piece { .. } | Unit::Sync { .. }, RecvStage::Skips { .. }) => Some(stage),
        (Unit::End { activity: end }, RecvStage::Skips { activity }) => (end == activity).then_some(
            stage,
        ),
        (Unit::Discard { activity: given }, RecvStage::Skips { activity }) => {
            if given == activity {
                Some(stage)
            } else {
                Some(RecvStage::Discards { activity: given })
            }
        }
        _ => None,
    }
}

fn may_resume(last: Last, activity: u32, number: u32) -> bool {
    match last {
        Last::Done { activity: done } if done == activity => 1 <= number,
        Last::Partial {
            activity: part,
            pieces,
        } if part == activity => 1 <= number && number <= pieces,
        _ => true,
    }
}

fn stands(last: Last, activity: u32, number: u32) -> bool {
    match last {
        Last::Done { activity: done } => done == activity,
        Last::Partial {
            activity: part,
            pieces,
        } => part == activity && number <= pieces,
        Last::None => false,
    }
}

pub fn is_partial_of(last: Last, activity: u32) -> bool {
    matches!(last, Last::Partial { activity: part, .. } if part == activity)
}

pub fn is_done(last: Last, activity: u32) -> bool {
    matches!(last, Last::Done { activity: done } if done == activity)
}

/// What the receiving end may put in this stage, and its stage then. `pick` chooses a late SyncAck.
pub fn answers(world: &World, link: &Link, pick: u32) -> Option<(Unit, RecvStage)> {
    match link.recv {
        RecvStage::Ended { activity, .. } if is_done(world.last, activity) => Some((
            Unit::EndAck { activity },
            RecvStage::Free,
        )),
        RecvStage::Asked { activity, number } => {
            if stands(world.last, activity, number) && 1 <= number {
                Some((
                    Unit::ResumeAck { activity, number },
                    RecvStage::Next { activity, number },
                ))
            } else if !is_done(world.last, activity) && !is_partial_of(world.last, activity) {
                Some((Unit::Unrecognized, RecvStage::Free))
            } else {
                None
            }
        }
        RecvStage::Discards { activity } => {
            if is_done(world.last, activity) {
                Some((Unit::Completed, RecvStage::Free))
            } else if !is_partial_of(world.last, activity) {
                Some((Unit::DiscardAck { activity }, RecvStage::Free))
            } else {
                None
            }
        }
        RecvStage::Found { activity } if !is_partial_of(world.last, activity) => Some((
            Unit::Exception,
            RecvStage::Skips { activity },
        )),
        stage => {
            let (activity, synced) = came(stage)?;
            let number = link.from.saturating_add(1).saturating_add(pick % 3);
            let allowed = number <= synced && stands(world.last, activity, number);
            allowed.then_some((Unit::SyncAck { number }, stage))
        }
    }
}

/// Whether this piece goes on from what stands.
pub fn takes_piece(world: &World, activity: u32, number: u32) -> bool {
    match world.last {
        Last::Partial {
            activity: part,
            pieces,
        } => activity == part && 1 <= number && number <= pieces.saturating_add(1),
        _ => world.high < activity && number == 1,
    }
}

/// The octets of the pieces below this one, and this one.
pub fn octets_with(world: &World, number: u32, token: u64) -> u64 {
    let mut octets = 0;
    for piece in world.pieces.iter().take(number.saturating_sub(1) as usize) {
        octets = with_piece(octets, *piece);
    }
    with_piece(octets, token)
}
