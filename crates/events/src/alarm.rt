ghost use Rattle.std.specs.Prelude.{◌≡◌, ok_or, Some};
ghost use Rattle.events.specs.Alarm.{alarm_number, alarm_of, alarm_state_name, alarm_bit, in_set};
ghost use Rattle.board.specs.declared.refusal.Cause.TheVariants.{ValueOutOfRange};

use board::refusal::Cause;
use std::fmt;

/// What a door can be alarmed about, Door_Alarm_State.
#[derive(Clone, Copy, PartialEq, Eq)]
pub enum AlarmState {
    Normal = 0,
    Alarm = 1,
    DoorOpenTooLong = 2,
    ForcedOpen = 3,
    Tamper = 4,
    DoorFault = 5,
    LockDown = 6,
    FreeAccess = 7,
    EgressOpen = 8,
}

impl AlarmState {
    pub fn number(self) -> u8
        ensures { result ≡ alarm_number self }
    {
        self as u8
    }

    pub fn name(self) -> &'static str
        ensures { result.now ≡ alarm_state_name self }
    {
        match self {
            AlarmState::Normal => "NORMAL",
            AlarmState::Alarm => "ALARM",
            AlarmState::DoorOpenTooLong => "DOOR_OPEN_TOO_LONG",
            AlarmState::ForcedOpen => "FORCED_OPEN",
            AlarmState::Tamper => "TAMPER",
            AlarmState::DoorFault => "DOOR_FAULT",
            AlarmState::LockDown => "LOCK_DOWN",
            AlarmState::FreeAccess => "FREE_ACCESS",
            AlarmState::EgressOpen => "EGRESS_OPEN",
        }
    }

    /// The bit of this state in a set of states.
    fn bit(self) -> u16
        ensures { result ≡ alarm_bit self }
    {
        1 << self.number()
    }

    // A set of states is a number, a bit string of BACnet, as the call that sets it is given it.
    pub fn is_in(self, set: u16) -> bool
        ensures { result ≡ in_set set self }
    {
        set & self.bit() != 0
    }
}

impl TryFrom<u64> for AlarmState {
    type Error = Cause;

    ghost try_from_gives = { λ number r. r ≡ ok_or (alarm_of number) ValueOutOfRange };

    fn try_from(number: u64) -> Result<AlarmState, Cause> {
        match number {
            0 => Ok(AlarmState::Normal),
            1 => Ok(AlarmState::Alarm),
            2 => Ok(AlarmState::DoorOpenTooLong),
            3 => Ok(AlarmState::ForcedOpen),
            4 => Ok(AlarmState::Tamper),
            5 => Ok(AlarmState::DoorFault),
            6 => Ok(AlarmState::LockDown),
            7 => Ok(AlarmState::FreeAccess),
            8 => Ok(AlarmState::EgressOpen),
            _ => Err(Cause::ValueOutOfRange),
        }
    }
}

impl fmt::Display for AlarmState {
    ghost output = { λ state. Some (alarm_state_name state) };

    fn fmt<W: fmt::Write>(&self, f: &mut fmt::Formatter<W>) -> fmt::Result {
        f.write_str(AlarmState::name(*self))
    }
}
