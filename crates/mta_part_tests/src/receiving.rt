//! Worked transfers, as the receiving half sees them.

use mta_lane_recv::{Last, RecvHalf, longest_piece};

#[test]
fn three_pieces_a_break_and_the_end(rt: HostRuntime) {
    let mut half = RecvHalf::new(1);
    assert!(rt; half.may_start(1));
    assert!(rt; half.takes_piece(1, 1));
    half.secure(1, 1);
    assert!(rt; !half.may_start(2));
    assert!(rt; half.last().stands(1, 1));
    assert!(rt; !half.last().stands(1, 2));
    assert!(rt; !half.takes_piece(1, 3));
    half.secure(1, 2);
    assert!(rt; half.takes_piece(1, 3));
    half.complete(1);
    assert_eq!(rt; half.last(), Last::Done { activity: 1 });
    assert_eq!(rt; half.high(), 1);
    assert!(rt; half.last().is_done(1));
    assert!(rt; !half.may_start(1));
    assert!(rt; half.may_start(2));
}

#[test]
fn what_does_not_stand(rt: HostRuntime) {
    let last = Last::Partial {
        activity: 3,
        pieces: 2,
    };
    let mut half = RecvHalf::restore(1, 3, last);
    assert!(rt; !half.last().stands(3, 3));
    assert!(rt; !half.last().is_partial_of(2));
    assert!(rt; !half.takes_piece(3, 4));
    assert!(rt; half.takes_piece(3, 3));
    half.drop_part();
    assert_eq!(rt; half.last(), Last::None);
    assert!(rt; !half.takes_piece(3, 1));
    assert!(rt; half.takes_piece(4, 1));
}

#[test]
fn how_long_a_piece_is(rt: HostRuntime) {
    assert_eq!(rt; longest_piece(0), 2_097_152);
    assert_eq!(rt; longest_piece(4), 4_096);
}
