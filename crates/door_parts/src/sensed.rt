ghost use Rattle.std.specs.Prelude.{◌≡◌};
ghost use Rattle.door_parts.specs.Sensed.{sensed_at_making, one_more, with_status, with_lock, with_alarm, counted_open, open_under, alarm_of_door, alarm_kept, settled_sense, held_longer};
ghost use Rattle.door_parts.specs.Sensed.{shows as shows_alarm};

use crate::settings::Settings;
use board::status::{DoorStatus, LockStatus};
use events::alarm::AlarmState;
use slots::value::DoorValue;

/// What is sensed of a door. The forced mark says that it was opened under LOCK; the open count is for how many ticks it
/// has been open under LOCK; the held count is for how many ticks the alarm state has stayed the same.
#[derive(Clone, Copy)]
pub struct Sensed {
    pub door_status: DoorStatus,
    pub lock_status: LockStatus,
    pub forced: bool,
    pub open_count: u32,
    pub alarm_state: AlarmState,
    pub held_count: u32,
}

/// Counts stop at a day of tenths.
fn one_more(count: u32) -> u32
    ensures { result ≡ one_more count }
{
    if count < 864_000 { count + 1 } else { count }
}

fn shows(settings: &Settings, alarm: AlarmState, holds: bool) -> bool
    ensures { result ≡ shows_alarm settings.now alarm holds }
{
    holds && !alarm.is_in(settings.masked_alarm_values)
}

impl Sensed {
    pub fn at_making() -> Sensed
        ensures { result ≡ sensed_at_making }
    {
        Sensed {
            door_status: DoorStatus::Unknown,
            lock_status: LockStatus::Unknown,
            forced: false,
            open_count: 0,
            alarm_state: AlarmState::Normal,
            held_count: 0,
        }
    }

    /// Door_Status as it now is, while that value rules.
    pub fn with_status(self, present_value: DoorValue, status: DoorStatus) -> Sensed
        ensures { result ≡ with_status self present_value status }
    {
        if status != DoorStatus::Opened {
            return Sensed {
                door_status: status,
                forced: false,
                open_count: 0,
                ..self
            };
        }
        if self.door_status == DoorStatus::Opened {
            return Sensed {
                door_status: status,
                ..self
            };
        }
        Sensed {
            door_status: status,
            forced: present_value.is_lock(),
            open_count: 0,
            ..self
        }
    }

    pub fn with_lock(self, status: LockStatus) -> Sensed
        ensures { result ≡ with_lock self status }
    {
        Sensed {
            lock_status: status,
            ..self
        }
    }

    pub fn with_alarm(self, alarm: AlarmState) -> Sensed
        ensures { result ≡ with_alarm self alarm }
    {
        Sensed {
            alarm_state: alarm,
            ..self
        }
    }

    /// One tick more of being open, where the door was open under LOCK before the tick.
    pub fn counted_open(self, was_open_under_lock: bool) -> Sensed
        ensures { result ≡ counted_open self was_open_under_lock }
    {
        if was_open_under_lock && self.door_status == DoorStatus::Opened {
            return Sensed {
                open_count: one_more(self.open_count),
                ..self
            };
        }
        self
    }

    /// Whether the door is open while that value rules and it is LOCK.
    pub fn is_open_under(&self, present_value: DoorValue) -> bool
        ensures { result ≡ open_under self.now present_value }
    {
        self.door_status == DoorStatus::Opened && present_value.is_lock()
    }

    // Three `if`s and no table of pairs to search: the order of the alarms is read off them.
    /// The first alarm that holds and is not masked.
    fn alarm_under(&self, settings: &Settings, present_value: DoorValue) -> AlarmState
        ensures { result ≡ alarm_of_door settings.now self.now.lock_status self.now.door_status present_value self.now.forced self.now.open_count }
    {
        if shows(
            settings,
            AlarmState::DoorFault,
            self.lock_status == LockStatus::Fault,
        ) {
            return AlarmState::DoorFault;
        }
        if shows(settings, AlarmState::ForcedOpen, self.forced) {
            return AlarmState::ForcedOpen;
        }
        let too_long = self.is_open_under(present_value)
            && !self.forced
            && self.open_count >= settings.door_open_too_long_time;
        if shows(settings, AlarmState::DoorOpenTooLong, too_long) {
            return AlarmState::DoorOpenTooLong;
        }
        AlarmState::Normal
    }

    /// Out of service the alarm state stays, unless it is masked.
    fn kept_alarm(&self, settings: &Settings) -> AlarmState
        ensures { result ≡ alarm_kept self.now settings.now }
    {
        if self.alarm_state.is_in(settings.masked_alarm_values) {
            AlarmState::Normal
        } else {
            self.alarm_state
        }
    }

    /// Settles under the value that rules: the mark, the counts and the alarm state are worked out again. `before` is the
    /// alarm state as the call began.
    pub fn settled(
        self,
        settings: &Settings,
        out_of_service: bool,
        present_value: DoorValue,
        before: AlarmState,
    ) -> Sensed
        ensures { result ≡ settled_sense self settings.now out_of_service present_value before }
    {
        let locked = present_value.is_lock();
        let marked = Sensed {
            forced: self.forced && locked,
            open_count: if locked { self.open_count } else { 0 },
            ..self
        };
        let alarm_state = if out_of_service {
            marked.kept_alarm(settings)
        } else {
            marked.alarm_under(settings, present_value)
        };
        let held_count = if alarm_state == before {
            self.held_count
        } else {
            0
        };
        Sensed {
            alarm_state,
            held_count,
            ..marked
        }
    }

    /// One tick more of the same alarm state, where the tick left it as it was.
    pub fn held_longer(self, before: AlarmState) -> Sensed
        ensures { result ≡ held_longer self before }
    {
        if self.alarm_state == before {
            return Sensed {
                held_count: one_more(self.held_count),
                ..self
            };
        }
        self
    }
}
