use board::board::Board;
use board::status::{DoorStatus, LockStatus};
use boards::plain_board::PlainBoard;
use std::process::Abort;

// A door's byte, and what its contact and its lock monitor then say.
fn reads(rt: &impl Abort, byte: u8, contact: DoorStatus, reading: LockStatus) {
    let mut board = PlainBoard::new(1);
    assert_eq!(rt; board.tick(&[byte]), Ok(()));
    assert_eq!(rt; board.contact(0), Ok(contact), "{}", byte);
    assert_eq!(rt; board.reading(0), Ok(reading), "{}", byte);
}

#[test]
fn contact_bits(rt: HostRuntime) {
    reads(&rt, 0b0000_0000, DoorStatus::Unknown, LockStatus::Unknown);
    reads(&rt, 0b0000_0001, DoorStatus::Closed, LockStatus::Unknown);
    reads(&rt, 0b0000_0010, DoorStatus::Unknown, LockStatus::Unknown);
    reads(&rt, 0b0000_0011, DoorStatus::Opened, LockStatus::Unknown);
}

#[test]
fn monitor_bits(rt: HostRuntime) {
    reads(&rt, 0b0000_0100, DoorStatus::Unknown, LockStatus::Locked);
    reads(&rt, 0b0000_1000, DoorStatus::Unknown, LockStatus::Unknown);
    reads(&rt, 0b0000_1100, DoorStatus::Unknown, LockStatus::Unlocked);
    reads(&rt, 0b0001_0000, DoorStatus::Unknown, LockStatus::Unknown);
    reads(&rt, 0b0001_1000, DoorStatus::Unknown, LockStatus::Unknown);
    reads(&rt, 0b0001_0100, DoorStatus::Unknown, LockStatus::Fault);
    reads(&rt, 0b0001_1100, DoorStatus::Unknown, LockStatus::Fault);
}

#[test]
fn other_bits_are_ignored(rt: HostRuntime) {
    reads(&rt, 0b1110_0000, DoorStatus::Unknown, LockStatus::Unknown);
    reads(&rt, 0b0010_0101, DoorStatus::Closed, LockStatus::Locked);
    reads(&rt, 0b0100_1111, DoorStatus::Opened, LockStatus::Unlocked);
    reads(&rt, 0b1000_0111, DoorStatus::Opened, LockStatus::Locked);
    reads(&rt, 0b1111_1111, DoorStatus::Opened, LockStatus::Fault);
}

#[test]
fn each_door_has_its_own_byte(rt: HostRuntime) {
    let mut board = PlainBoard::new(3);
    assert_eq!(rt; board.tick(&[1, 3, 0b1100]), Ok(()));
    assert_eq!(rt; board.contact(0), Ok(DoorStatus::Closed));
    assert_eq!(rt; board.contact(1), Ok(DoorStatus::Opened));
    assert_eq!(rt; board.contact(2), Ok(DoorStatus::Unknown));
    assert_eq!(rt; board.reading(1), Ok(LockStatus::Unknown));
    assert_eq!(rt; board.reading(2), Ok(LockStatus::Unlocked));
}
