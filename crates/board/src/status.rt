ghost use Rattle.std.specs.Prelude.{◌≡◌, ok_or, Some};
ghost use Rattle.board.specs.Status.{door_status_number, lock_status_number, output_number};
ghost use Rattle.board.specs.Status.{door_status_of, lock_status_of, output_of};
ghost use Rattle.board.specs.Status.{door_status_name, lock_status_name, output_name};
ghost use Rattle.board.specs.declared.refusal.Cause.TheVariants.{ValueOutOfRange};

use crate::refusal::Cause;
use std::fmt;

/// What a door's contact says, and so the Door_Status of a door that follows it.
#[derive(Clone, Copy, PartialEq, Eq, Debug)]
pub enum DoorStatus {
    Closed = 0,
    Opened = 1,
    Unknown = 2,
}

/// What a lock monitor reads, and so the Lock_Status of a door that follows it.
#[derive(Clone, Copy, PartialEq, Eq, Debug)]
pub enum LockStatus {
    Locked = 0,
    Unlocked = 1,
    Fault = 2,
    Unknown = 3,
}

/// What an output is driven to. A lock that is held keeps its door shut; the sounder sounds while released.
#[derive(Clone, Copy, PartialEq, Eq, Debug)]
pub enum Output {
    Held = 0,
    Released = 1,
}

impl DoorStatus {
    pub fn number(self) -> u8
        ensures { result ≡ door_status_number self }
    {
        self as u8
    }

    pub fn name(self) -> &'static str
        ensures { result.now ≡ door_status_name self }
    {
        match self {
            DoorStatus::Closed => "CLOSED",
            DoorStatus::Opened => "OPENED",
            DoorStatus::Unknown => "UNKNOWN",
        }
    }
}

impl TryFrom<u64> for DoorStatus {
    type Error = Cause;

    ghost try_from_gives = { λ number r. r ≡ ok_or (door_status_of number) ValueOutOfRange };

    fn try_from(number: u64) -> Result<DoorStatus, Cause> {
        match number {
            0 => Ok(DoorStatus::Closed),
            1 => Ok(DoorStatus::Opened),
            2 => Ok(DoorStatus::Unknown),
            _ => Err(Cause::ValueOutOfRange),
        }
    }
}

impl fmt::Display for DoorStatus {
    ghost output = { λ status. Some (door_status_name status) };

    fn fmt<W: fmt::Write>(&self, f: &mut fmt::Formatter<W>) -> fmt::Result {
        f.write_str(DoorStatus::name(*self))
    }
}

impl LockStatus {
    pub fn number(self) -> u8
        ensures { result ≡ lock_status_number self }
    {
        self as u8
    }

    pub fn name(self) -> &'static str
        ensures { result.now ≡ lock_status_name self }
    {
        match self {
            LockStatus::Locked => "LOCKED",
            LockStatus::Unlocked => "UNLOCKED",
            LockStatus::Fault => "FAULT",
            LockStatus::Unknown => "UNKNOWN",
        }
    }
}

impl TryFrom<u64> for LockStatus {
    type Error = Cause;

    ghost try_from_gives = { λ number r. r ≡ ok_or (lock_status_of number) ValueOutOfRange };

    fn try_from(number: u64) -> Result<LockStatus, Cause> {
        match number {
            0 => Ok(LockStatus::Locked),
            1 => Ok(LockStatus::Unlocked),
            2 => Ok(LockStatus::Fault),
            3 => Ok(LockStatus::Unknown),
            _ => Err(Cause::ValueOutOfRange),
        }
    }
}

impl fmt::Display for LockStatus {
    ghost output = { λ status. Some (lock_status_name status) };

    fn fmt<W: fmt::Write>(&self, f: &mut fmt::Formatter<W>) -> fmt::Result {
        f.write_str(LockStatus::name(*self))
    }
}

impl Output {
    pub fn number(self) -> u8
        ensures { result ≡ output_number self }
    {
        self as u8
    }

    pub fn name(self) -> &'static str
        ensures { result.now ≡ output_name self }
    {
        match self {
            Output::Held => "held",
            Output::Released => "released",
        }
    }
}

impl TryFrom<u64> for Output {
    type Error = Cause;

    ghost try_from_gives = { λ number r. r ≡ ok_or (output_of number) ValueOutOfRange };

    fn try_from(number: u64) -> Result<Output, Cause> {
        match number {
            0 => Ok(Output::Held),
            1 => Ok(Output::Released),
            _ => Err(Cause::ValueOutOfRange),
        }
    }
}

impl fmt::Display for Output {
    ghost output = { λ output. Some (output_name output) };

    fn fmt<W: fmt::Write>(&self, f: &mut fmt::Formatter<W>) -> fmt::Result {
        f.write_str(Output::name(*self))
    }
}
