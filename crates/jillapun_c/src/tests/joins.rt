//! What is reported of the parts of an input, joined.

use crate::losses::Loss;
use crate::parts::{jillapun_join_loss, jillapun_join_reports};
use crate::report::Report;
use crate::status::{BAD, LOST};

const BEFORE: Report = Report {
    read: 1000,
    bad: 1,
    lost: 2,
    characters: 900,
    written: 1100,
    losses: 3,
    index: 0,
    scalar: 0,
};

#[test]
fn a_malformed_sequence_is_moved_by_bytes(rt: HostRuntime) {
    let mut loss = Loss {
        place: 6,
        number: 1,
        kind: BAD,
    };
    assert!(rt; jillapun_join_loss(&BEFORE, &mut loss));
    assert_eq!(rt; (loss.place, loss.number, loss.kind), (1006, 1, BAD));
}

#[test]
fn a_lost_character_is_moved_by_characters(rt: HostRuntime) {
    let mut loss = Loss {
        place: 7,
        number: 0x1F4A9,
        kind: LOST,
    };
    assert!(rt; jillapun_join_loss(&BEFORE, &mut loss));
    assert_eq!(rt; (loss.place, loss.number, loss.kind), (907, 0x1F4A9, LOST));
}

#[test]
fn another_record_stays(rt: HostRuntime) {
    let mut loss = Loss {
        place: 7,
        number: 1,
        kind: 2,
    };
    assert!(rt; !jillapun_join_loss(&BEFORE, &mut loss));
    assert_eq!(rt; loss.place, 7);
    loss.kind = BAD;
    loss.place = u64::MAX - 999;
    assert!(rt; !jillapun_join_loss(&BEFORE, &mut loss));
    assert_eq!(rt; loss.place, u64::MAX - 999);
}

#[test]
fn counts_are_added(rt: HostRuntime) {
    let mut whole = BEFORE;
    let next = Report {
        read: 20,
        bad: 30,
        lost: 40,
        characters: 50,
        written: 60,
        losses: 70,
        index: 80,
        scalar: 90,
    };
    assert!(rt; jillapun_join_reports(&mut whole, &next));
    assert_eq!(rt; (whole.read, whole.bad, whole.lost), (1020, 31, 42));
    assert_eq!(rt;
        (whole.characters, whole.written, whole.losses),
        (950, 1160, 73)
    );
    assert_eq!(rt; (whole.index, whole.scalar), (0, 0));
}

#[test]
fn a_count_that_passes_is_not_added(rt: HostRuntime) {
    let mut whole = BEFORE;
    let next = Report {
        characters: u64::MAX - 899,
        ..BEFORE
    };
    assert!(rt; !jillapun_join_reports(&mut whole, &next));
    assert_eq!(rt; (whole.read, whole.characters), (1000, 900));
}
