ghost use Rattle.std.specs.Prelude.{◌≡◌};
ghost use Rattle.std.proofs.Common.{rules};
ghost use Rattle.boards.specs.Plain.{plain_contact, plain_reading, plain_contact_at, plain_reading_at};

use crate::byte_board::ByteBoard;
use crate::door_bytes::DoorBytes;
use board::status::{DoorStatus, LockStatus};

/// A board with one byte for each door.
pub type PlainBoard = ByteBoard<PlainBytes>;

/// The rule of the plain board.
#[derive(Clone, Copy)]
pub struct PlainBytes;

/// Bit 0 of a door's byte: it has a contact.
const CONTACT_FITTED: u8 = 1;

/// Bit 1: its contact is open.
const OPEN: u8 = 2;

/// Bit 2: it has a lock monitor.
const MONITOR_FITTED: u8 = 4;

/// Bit 3: its lock is unlocked.
const UNLOCKED: u8 = 8;

/// Bit 4: its monitor is in trouble.
const MONITOR_TROUBLE: u8 = 16;

fn contact_said(byte: u8) -> DoorStatus
    ensures { result ≡ plain_contact byte }
{
    if byte & CONTACT_FITTED == 0 {
        DoorStatus::Unknown
    } else if byte & OPEN == 0 {
        DoorStatus::Closed
    } else {
        DoorStatus::Opened
    }
}

fn reading_said(byte: u8) -> LockStatus
    ensures { result ≡ plain_reading byte }
{
    if byte & MONITOR_FITTED == 0 {
        LockStatus::Unknown
    } else if byte & MONITOR_TROUBLE != 0 {
        LockStatus::Fault
    } else if byte & UNLOCKED == 0 {
        LockStatus::Locked
    } else {
        LockStatus::Unlocked
    }
}

impl DoorBytes for PlainBytes {
    ghost PER_DOOR = { 1 };

    ghost contact = { plain_contact_at };

    ghost reading = { plain_reading_at };

    ghost narrow = { Prim.search rules };

    const PER_DOOR: usize = 1;

    fn contact_of(bytes: &[u8], door: usize) -> DoorStatus {
        contact_said(bytes[door])
    }

    fn reading_of(bytes: &[u8], door: usize) -> LockStatus {
        reading_said(bytes[door])
    }
}
