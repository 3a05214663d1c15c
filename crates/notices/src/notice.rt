use door::shown::StatusFlags;
use events::alarm::AlarmState;
use events::event::Transition;

/// What an enabled transition of a door tells: the alarm state and the Status_Flags are those right after it. Serials count
/// the notices of a panel from 1.
#[derive(Clone, Copy)]
pub struct Notice {
    pub serial: u64,
    pub door: usize,
    pub transition: Transition,
    pub alarm_state: AlarmState,
    pub status_flags: StatusFlags,
}
