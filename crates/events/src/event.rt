ghost use Rattle.std.specs.Prelude.{◌≡◌, ok_or};
ghost use Rattle.events.specs.Event.{event_number, transition_numbered, transition_bit, enabled, class_of, event_after, transition_of};
ghost use Rattle.events.specs.PerTransition.{transition_number};
ghost use Rattle.events.specs.Event.{events_at_making, acknowledged, stepped};
ghost use Rattle.board.specs.declared.refusal.Cause.TheVariants.{ValueOutOfRange};

use crate::alarm::AlarmState;
use crate::per_transition::PerTransition;
use board::refusal::Cause;

/// Event_State of a door.
#[derive(Clone, Copy, PartialEq, Eq)]
pub enum EventState {
    Normal = 0,
    Fault = 1,
    Offnormal = 2,
}

/// A change of Event_State, named by where it leads.
#[derive(Clone, Copy)]
pub enum Transition {
    ToOffnormal = 0,
    ToFault = 1,
    ToNormal = 2,
}

/// What an alarm state is to a door's two sets. One that is in both is a fault value.
#[derive(Clone, Copy)]
pub enum Class {
    FaultValue,
    AlarmValue,
    NeitherValue,
}

impl EventState {
    pub fn number(self) -> u8
        ensures { result ≡ event_number self }
    {
        self as u8
    }

    /// The event step: where an alarm state that has been held for so many ticks leads, under a delay in seconds.
    pub fn after(self, class: Class, held_count: u32, time_delay: u32) -> EventState
        ensures { result ≡ event_after self class held_count time_delay }
    {
        let held_long = u64::from(held_count) >= 10 * u64::from(time_delay);
        match (self, class) {
            (EventState::Normal | EventState::Offnormal, Class::FaultValue) => EventState::Fault,
            (EventState::Normal | EventState::Fault, Class::AlarmValue) if held_long =>
                EventState::Offnormal,
            (EventState::Fault | EventState::Offnormal, Class::NeitherValue) if held_long =>
                EventState::Normal,
            (state, _) => state,
        }
    }

    /// The transition from this state to another, if it is another.
    pub fn transition(self, next: EventState) -> Option<Transition>
        ensures { result ≡ transition_of self next }
    {
        if self == next {
            return None;
        }
        Some(match next {
            EventState::Normal => Transition::ToNormal,
            EventState::Fault => Transition::ToFault,
            EventState::Offnormal => Transition::ToOffnormal,
        })
    }
}

impl Transition {
    pub fn number(self) -> u8
        ensures { result ≡ transition_number self }
    {
        self as u8
    }

    fn bit(self) -> u8
        ensures { result ≡ transition_bit self }
    {
        1 << self.number()
    }

    // Event_Enable is a number, a bit string of BACnet, as the call that sets it is given it.
    /// Whether Event_Enable has this transition.
    pub fn is_in(self, event_enable: u8) -> bool
        ensures { result ≡ enabled event_enable self }
    {
        event_enable & self.bit() != 0
    }
}

impl TryFrom<u64> for Transition {
    type Error = Cause;

    ghost try_from_gives = { λ number r. r ≡ ok_or (transition_numbered number) ValueOutOfRange };

    fn try_from(number: u64) -> Result<Transition, Cause> {
        match number {
            0 => Ok(Transition::ToOffnormal),
            1 => Ok(Transition::ToFault),
            2 => Ok(Transition::ToNormal),
            _ => Err(Cause::ValueOutOfRange),
        }
    }
}

/// The class of an alarm state under a door's Alarm_Values and Fault_Values.
pub fn class_of(alarm: AlarmState, alarm_values: u16, fault_values: u16) -> Class
    ensures { result ≡ class_of alarm alarm_values fault_values }
{
    if alarm.is_in(fault_values) {
        Class::FaultValue
    } else if alarm.is_in(alarm_values) {
        Class::AlarmValue
    } else {
        Class::NeitherValue
    }
}

// No stamp is None: one that never happened is shown as 0, since the properties are numbers.
/// A door's events: its state, which transitions are acknowledged (Acked_Transitions), and when each last happened while
/// it was enabled, in tenths; 0 before the first.
#[derive(Clone, Copy)]
pub struct Events {
    pub event_state: EventState,
    pub acked: PerTransition<bool>,
    pub stamps: PerTransition<u32>,
}

impl Events {
    /// No event yet; every transition counts as acknowledged.
    pub fn at_making() -> Events
        ensures { result ≡ events_at_making }
    {
        Events {
            event_state: EventState::Normal,
            acked: PerTransition {
                to_offnormal: true,
                to_fault: true,
                to_normal: true,
            },
            stamps: PerTransition {
                to_offnormal: 0,
                to_fault: 0,
                to_normal: 0,
            },
        }
    }

    pub fn acknowledged(self, transition: Transition) -> Events
        ensures { result ≡ acknowledged self transition }
    {
        let acked = self.acked.with(transition, true);
        Events { acked, ..self }
    }

    /// The state becomes another, or stays. A transition that is enabled is stamped and wants acknowledging.
    pub fn stepped(self, next: EventState, event_enable: u8, tenth: u32) -> Events
        ensures { result ≡ stepped self next event_enable tenth }
    {
        let Some(transition) = self.event_state.transition(next) else {
            return self;
        };
        let enabled = transition.is_in(event_enable);
        Events {
            event_state: next,
            acked: self.acked.with(transition, !enabled),
            stamps: if enabled {
                self.stamps.with(transition, tenth)
            } else {
                self.stamps
            },
        }
    }
}
