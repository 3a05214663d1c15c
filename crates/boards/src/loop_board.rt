ghost use Rattle.std.specs.Prelude.{◌≡◌};
ghost use Rattle.std.proofs.Common.{rules};
ghost use Rattle.boards.specs.Loop.{band, loop_contact, loop_reading, loop_contact_at, loop_reading_at};

use crate::byte_board::ByteBoard;
use crate::door_bytes::DoorBytes;
use board::status::{DoorStatus, LockStatus};

/// A board with two bytes for each door: its contact's loop, then its lock's.
pub type LoopBoard = ByteBoard<LoopBytes>;

/// The rule of the loop board.
#[derive(Clone, Copy)]
pub struct LoopBytes;

/// What the byte of a loop says of its line.
#[derive(Clone, Copy)]
pub enum Band {
    Shut,
    Open,
    Trouble,
}

fn band_of(byte: u8) -> Band
    ensures { result ≡ band byte }
{
    match byte {
        32..=127 => Band::Shut,
        128..=223 => Band::Open,
        _ => Band::Trouble,
    }
}

fn contact_said(band: Band) -> DoorStatus
    ensures { result ≡ loop_contact band }
{
    match band {
        Band::Shut => DoorStatus::Closed,
        Band::Open => DoorStatus::Opened,
        Band::Trouble => DoorStatus::Unknown,
    }
}

fn reading_said(band: Band) -> LockStatus
    ensures { result ≡ loop_reading band }
{
    match band {
        Band::Shut => LockStatus::Locked,
        Band::Open => LockStatus::Unlocked,
        Band::Trouble => LockStatus::Fault,
    }
}

impl DoorBytes for LoopBytes {
    ghost PER_DOOR = { 2 };

    ghost contact = { loop_contact_at };

    ghost reading = { loop_reading_at };

    ghost narrow = { Prim.search rules };

    const PER_DOOR: usize = 2;

    fn contact_of(bytes: &[u8], door: usize) -> DoorStatus {
        contact_said(band_of(bytes[2 * door]))
    }

    fn reading_of(bytes: &[u8], door: usize) -> LockStatus {
        reading_said(band_of(bytes[2 * door + 1]))
    }
}
