//! Worked transfers: an activity of 10,000 octets at checkpoint size 4.

use mta_lane_send::{NextData, OnLink, Recovery, SendHalf, SendState};

const OCTETS: u32 = 10_000;

fn piece(number: u32, from: u32, to: u32, last: bool) -> Option<NextData> {
    Some(NextData::Piece {
        number,
        from,
        to,
        last,
    })
}

/// What is put next, a piece with its Sync; none where no piece is next.
fn next(half: &mut SendHalf) -> Option<NextData> {
    match half.on_link() {
        OnLink::Pieces { .. } => {
            let next = half.next_data();
            half.put_sync();
            Some(next)
        }
        _ => None,
    }
}

/// Whether a SyncAck of this number is taken.
fn confirms(half: &mut SendHalf, number: u32) -> bool {
    let activity = half.state().last();
    if half.is_confirming(number) && half.may_confirm(activity, number) {
        half.confirm(activity, number);
        true
    } else {
        false
    }
}

#[test]
fn three_pieces_and_end(rt: HostRuntime) {
    let mut half = SendHalf::new(1, 4, 3);
    half.start(OCTETS);
    assert_eq!(rt; half.state().last(), 1);
    assert_eq!(rt; next(&mut half), piece(1, 0, 4096, false));
    assert_eq!(rt; next(&mut half), piece(2, 4096, 8192, false));
    assert_eq!(rt; next(&mut half), piece(3, 8192, 10_000, true));
    assert_eq!(rt; next(&mut half), None);
    assert!(rt; !confirms(&mut half, 3));
    assert!(rt; confirms(&mut half, 2));
    assert!(rt; half.state().is_sending(1));
    if half.state().is_sending(1) {
        half.ending(1);
    }
    half.put_end();
    assert_eq!(rt; half.on_link(), OnLink::End { number: 3 });
    assert!(rt; half.state().is_ending(1));
    half.settle();
    assert_eq!(rt; half.state(), SendState::Idle { last: 1 });
}

#[test]
fn a_window_of_one_waits_for_each_ack(rt: HostRuntime) {
    let mut half = SendHalf::new(1, 4, 1);
    half.start(OCTETS);
    assert_eq!(rt; next(&mut half), piece(1, 0, 4096, false));
    assert_eq!(rt; next(&mut half), Some(NextData::Wait));
    assert!(rt; confirms(&mut half, 1));
    assert_eq!(rt; next(&mut half), piece(2, 4096, 8192, false));
    assert_eq!(rt; next(&mut half), Some(NextData::Wait));
    assert!(rt; confirms(&mut half, 2));
    assert_eq!(rt; next(&mut half), piece(3, 8192, 10_000, true));
    assert_eq!(rt; next(&mut half), None);
}

#[test]
fn a_break_behind_the_first_ack_resumes_with_piece_two(rt: HostRuntime) {
    let state = SendState::Sending {
        activity: 1,
        confirmed: 1,
    };
    let mut half = SendHalf::restore(1, 4, 3, state, OCTETS);
    half.bind(2);
    assert_eq!(rt;
        half.recover(),
        Recovery::ResumeAt {
            activity: 1,
            number: 1
        }
    );
    half.on_resume_ack();
    assert_eq!(rt; next(&mut half), piece(2, 4096, 8192, false));
    assert_eq!(rt; next(&mut half), piece(3, 8192, 10_000, true));
    assert_eq!(rt; next(&mut half), None);
}

#[test]
fn a_break_behind_end_discards(rt: HostRuntime) {
    let state = SendState::Ending {
        activity: 1,
        confirmed: 0,
    };
    let mut half = SendHalf::restore(1, 4, 3, state, OCTETS);
    half.bind(2);
    assert_eq!(rt; half.recover(), Recovery::DiscardIt { activity: 1 });
    assert_eq!(rt; half.on_link(), OnLink::Discard);
    assert_eq!(rt; next(&mut half), None);
    half.settle();
    assert_eq!(rt; half.state(), SendState::Idle { last: 1 });
}

#[test]
fn given_up_while_it_is_sent(rt: HostRuntime) {
    let mut half = SendHalf::new(1, 0, 1);
    half.start(5);
    assert!(rt; !half.may_confirm(1, 1));
    half.abandon(1);
    assert_eq!(rt; half.state(), SendState::Dropping { activity: 1 });
    assert_eq!(rt; half.recover(), Recovery::DiscardIt { activity: 1 });
}
