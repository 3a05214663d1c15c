ghost use Rattle.std.specs.Prelude.{◌≡◌, ok_or, Some};
ghost use Rattle.board.specs.declared.refusal.Cause.TheVariants.{ValueOutOfRange};
ghost use Rattle.door.specs.Shown.{secured_numbered, secured_status_name};
ghost use Rattle.door.specs.Shown.{reliability_number, secured_number, flags_number, reliability_of, flags_of, secured_of, report_row};

use crate::row::Row;
use board::refusal::Cause;
use board::status::{DoorStatus, LockStatus};
use events::event::EventState;
use std::fmt;

/// Reliability of a door.
#[derive(Clone, Copy, PartialEq, Eq)]
pub enum Reliability {
    NoFaultDetected = 0,
    MultiStateFault = 9,
}

/// Secured_Status of a door.
#[derive(Clone, Copy)]
pub enum SecuredStatus {
    Secured = 0,
    Unsecured = 1,
    Unknown = 2,
}

/// Status_Flags of a door. OVERRIDDEN is always FALSE.
#[derive(Clone, Copy)]
pub struct StatusFlags {
    pub in_alarm: bool,
    pub fault: bool,
    pub overridden: bool,
    pub out_of_service: bool,
}

/// What a report tells of a door, as numbers.
// Numbers and no enumerations: a mirror has such rows too, by what bytes say, and a reader has to be able to refuse a number.
#[derive(Clone, Copy, PartialEq, Eq)]
pub struct ReportRow {
    pub present_value: u8,
    pub status_flags: u8,
    pub door_alarm_state: u8,
    pub door_status: u8,
    pub lock_status: u8,
    pub secured_status: u8,
    pub output: u8,
    pub released_tenths: u32,
}

impl Reliability {
    pub fn number(self) -> u8
        ensures { result ≡ reliability_number self }
    {
        self as u8
    }
}

impl SecuredStatus {
    pub fn number(self) -> u8
        ensures { result ≡ secured_number self }
    {
        self as u8
    }

    pub fn name(self) -> &'static str
        ensures { result.now ≡ secured_status_name self }
    {
        match self {
            SecuredStatus::Secured => "SECURED",
            SecuredStatus::Unsecured => "UNSECURED",
            SecuredStatus::Unknown => "UNKNOWN",
        }
    }
}

impl TryFrom<u64> for SecuredStatus {
    type Error = Cause;

    ghost try_from_gives = { λ number r. r ≡ ok_or (secured_numbered number) ValueOutOfRange };

    fn try_from(number: u64) -> Result<SecuredStatus, Cause> {
        match number {
            0 => Ok(SecuredStatus::Secured),
            1 => Ok(SecuredStatus::Unsecured),
            2 => Ok(SecuredStatus::Unknown),
            _ => Err(Cause::ValueOutOfRange),
        }
    }
}

impl fmt::Display for SecuredStatus {
    ghost output = { λ status. Some (secured_status_name status) };

    fn fmt<W: fmt::Write>(&self, f: &mut fmt::Formatter<W>) -> fmt::Result {
        f.write_str(SecuredStatus::name(*self))
    }
}

impl StatusFlags {
    // A sum of bits: std converts one bool to a number, and no four of them.
    /// Bit 0 is IN_ALARM, 1 FAULT, 2 OVERRIDDEN, 3 OUT_OF_SERVICE.
    pub fn number(self) -> u8
        ensures { result ≡ flags_number self }
    {
        u8::from(self.in_alarm)
            + 2 * u8::from(self.fault)
            + 4 * u8::from(self.overridden)
            + 8 * u8::from(self.out_of_service)
    }
}

impl Row {
    /// MULTI_STATE_FAULT while the alarm state is a fault value.
    pub fn reliability(&self) -> Reliability
        ensures { result ≡ reliability_of self.now }
    {
        if self.sensed.alarm_state.is_in(self.settings.fault_values) {
            Reliability::MultiStateFault
        } else {
            Reliability::NoFaultDetected
        }
    }

    pub fn status_flags(&self) -> StatusFlags
        ensures { result ≡ flags_of self.now }
    {
        StatusFlags {
            in_alarm: self.events.event_state != EventState::Normal,
            fault: self.reliability() == Reliability::MultiStateFault,
            overridden: false,
            out_of_service: self.out_of_service,
        }
    }

    pub fn secured_status(&self) -> SecuredStatus
        ensures { result ≡ secured_of self.now }
    {
        if self.events.event_state != EventState::Normal
            || self.settings.masked_alarm_values != 0
            || !self.commanded.present_value.is_lock()
        {
            return SecuredStatus::Unsecured;
        }
        match (self.sensed.door_status, self.sensed.lock_status) {
            (DoorStatus::Opened, _) => SecuredStatus::Unsecured,
            (_, LockStatus::Unlocked | LockStatus::Fault) => SecuredStatus::Unsecured,
            (DoorStatus::Unknown, _) => SecuredStatus::Unknown,
            (DoorStatus::Closed, _) => SecuredStatus::Secured,
        }
    }

    /// The door as a report tells of it.
    pub fn report_row(&self) -> ReportRow
        ensures { result ≡ report_row self.now }
    {
        ReportRow {
            present_value: self.commanded.present_value.number(),
            status_flags: self.status_flags().number(),
            door_alarm_state: self.sensed.alarm_state.number(),
            door_status: self.sensed.door_status.number(),
            lock_status: self.sensed.lock_status.number(),
            secured_status: self.secured_status().number(),
            output: self.commanded.output.number(),
            released_tenths: self.released_tenths,
        }
    }
}
