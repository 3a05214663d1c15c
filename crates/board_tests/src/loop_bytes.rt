use board::board::Board;
use board::status::{DoorStatus, LockStatus};
use boards::loop_board::LoopBoard;
use std::process::Abort;

// A byte on both loops of the second of two doors, and what its contact and its lock monitor then say.
fn reads(rt: &impl Abort, byte: u8, contact: DoorStatus, reading: LockStatus) {
    let mut board = LoopBoard::new(2);
    assert_eq!(rt; board.tick(&[40, 200, byte, byte]), Ok(()));
    assert_eq!(rt; board.contact(0), Ok(DoorStatus::Closed));
    assert_eq!(rt; board.reading(0), Ok(LockStatus::Unlocked));
    assert_eq!(rt; board.contact(1), Ok(contact), "{}", byte);
    assert_eq!(rt; board.reading(1), Ok(reading), "{}", byte);
}

#[test]
fn band_edges(rt: HostRuntime) {
    reads(&rt, 0, DoorStatus::Unknown, LockStatus::Fault);
    reads(&rt, 31, DoorStatus::Unknown, LockStatus::Fault);
    reads(&rt, 32, DoorStatus::Closed, LockStatus::Locked);
    reads(&rt, 127, DoorStatus::Closed, LockStatus::Locked);
    reads(&rt, 128, DoorStatus::Opened, LockStatus::Unlocked);
    reads(&rt, 223, DoorStatus::Opened, LockStatus::Unlocked);
    reads(&rt, 224, DoorStatus::Unknown, LockStatus::Fault);
    reads(&rt, 255, DoorStatus::Unknown, LockStatus::Fault);
}
