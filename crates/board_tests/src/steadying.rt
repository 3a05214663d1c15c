use crate::latch::LatchBoard;
use board::board::Board;
use board::refusal::Refusal;
use board::status::{DoorStatus, LockStatus, Output};
use boards::plain_board::PlainBoard;
use std::process::Abort;
use steady::steady::Steady;

const CLOSED: u8 = 1;

const OPEN: u8 = 3;

const NOT_FITTED: u8 = 0;

// The bytes of one door's ticks, each with the contact that is shown after it.
fn shows(rt: &impl Abort, count: u8, ticks: &[(u8, DoorStatus)]) {
    let mut board = Steady::new(PlainBoard::new(1), count);
    assert_eq!(rt; board.contact(0), Ok(DoorStatus::Unknown));
    for (i, (byte, shown)) in ticks.iter().enumerate() {
        assert_eq!(rt; board.tick(&[*byte]), Ok(()));
        assert_eq!(rt; board.contact(0), Ok(*shown), "count {count}, tick {i}");
    }
}

#[test]
fn a_count_of_0_or_1_follows_at_once(rt: HostRuntime) {
    for count in [0u8, 1] {
        shows(
            &rt,
            count,
            &[
                (OPEN, DoorStatus::Opened),
                (CLOSED, DoorStatus::Closed),
                (NOT_FITTED, DoorStatus::Unknown),
                (OPEN, DoorStatus::Opened),
            ],
        );
    }
}

#[test]
fn a_count_of_2_asks_for_two_in_a_row(rt: HostRuntime) {
    shows(
        &rt,
        2,
        &[
            (CLOSED, DoorStatus::Unknown),
            (CLOSED, DoorStatus::Closed),
            (OPEN, DoorStatus::Closed),
            (CLOSED, DoorStatus::Closed),
            (OPEN, DoorStatus::Closed),
            (NOT_FITTED, DoorStatus::Closed),
            (OPEN, DoorStatus::Closed),
            (OPEN, DoorStatus::Opened),
            (NOT_FITTED, DoorStatus::Opened),
            (NOT_FITTED, DoorStatus::Unknown),
        ],
    );
}

#[test]
fn the_unknown_at_making_is_no_tick(rt: HostRuntime) {
    shows(
        &rt,
        3,
        &[
            (NOT_FITTED, DoorStatus::Unknown),
            (CLOSED, DoorStatus::Unknown),
            (CLOSED, DoorStatus::Unknown),
            (CLOSED, DoorStatus::Closed),
            (NOT_FITTED, DoorStatus::Closed),
            (NOT_FITTED, DoorStatus::Closed),
            (NOT_FITTED, DoorStatus::Unknown),
        ],
    );
}

#[test]
fn a_count_of_255_asks_for_255(rt: HostRuntime) {
    let mut board = Steady::new(PlainBoard::new(1), 255);
    for _ in 0..254 {
        assert_eq!(rt; board.tick(&[OPEN]), Ok(()));
        assert_eq!(rt; board.contact(0), Ok(DoorStatus::Unknown));
    }
    for _ in 0..300 {
        assert_eq!(rt; board.tick(&[OPEN]), Ok(()));
        assert_eq!(rt; board.contact(0), Ok(DoorStatus::Opened));
    }
    for _ in 0..254 {
        assert_eq!(rt; board.tick(&[CLOSED]), Ok(()));
        assert_eq!(rt; board.contact(0), Ok(DoorStatus::Opened));
    }
    assert_eq!(rt; board.tick(&[CLOSED]), Ok(()));
    assert_eq!(rt; board.contact(0), Ok(DoorStatus::Closed));
}

#[test]
fn readings_pass_through(rt: HostRuntime) {
    let mut board = Steady::new(PlainBoard::new(2), 200);
    assert_eq!(rt; board.tick(&[0b0100, 0b1100]), Ok(()));
    assert_eq!(rt; board.reading(0), Ok(LockStatus::Locked));
    assert_eq!(rt; board.reading(1), Ok(LockStatus::Unlocked));
}

// The contacts below go by how often an output was driven: closed after an even count.
#[test]
fn a_board_with_hidden_state_is_steadied(rt: HostRuntime) {
    let mut board = Steady::new(LatchBoard::new(), 2);
    assert_eq!(rt; board.contact(1), Ok(DoorStatus::Unknown));
    assert_eq!(rt; board.reading(1), Ok(LockStatus::Fault));
    assert_eq!(rt; board.output(1), Ok(Output::Released));
    assert_eq!(rt; board.drive(0, Output::Held), Ok(()));
    assert_eq!(rt; board.tick(&[]), Ok(()));
    assert_eq!(rt; board.contact(1), Ok(DoorStatus::Unknown));
    assert_eq!(rt; board.reading(0), Ok(LockStatus::Locked));
    assert_eq!(rt; board.reading(1), Ok(LockStatus::Unlocked));
    assert_eq!(rt; board.tick(&[0]), Err(Refusal::wrong_tick_length(1)));
    assert_eq!(rt; board.contact(1), Ok(DoorStatus::Unknown));
    assert_eq!(rt; board.tick(&[]), Ok(()));
    assert_eq!(rt; board.contact(1), Ok(DoorStatus::Opened));
    assert_eq!(rt; board.drive(2, Output::Held), Ok(()));
    assert_eq!(rt; board.tick(&[]), Ok(()));
    assert_eq!(rt; board.contact(1), Ok(DoorStatus::Opened));
    assert_eq!(rt; board.tick(&[]), Ok(()));
    assert_eq!(rt; board.contact(1), Ok(DoorStatus::Closed));
}
