ghost use Rattle.std.specs.Prelude.{◌≡◌};
ghost use Rattle.door.specs.Simulated.{simulated_of, masks};

use board::refusal::Cause;
use board::status::{DoorStatus, LockStatus};
use door_parts::settings::Settings;
use events::alarm::AlarmState;

/// What simulate writes into a door that is out of service.
#[derive(Clone, Copy)]
pub enum Simulated {
    Door(DoorStatus),
    Lock(LockStatus),
    Alarm(AlarmState),
}

impl Simulated {
    /// What an item and a number say: items are 226, 231 and 233, and an item that there is not goes before any number.
    pub(crate) fn of(item: u64, number: u64) -> Result<Simulated, Cause>
        ensures { result ≡ simulated_of item number }
    {
        // Numbers of properties, as a call is given them: an enumeration of the three would only be matched on again.
        match item {
            226 => Ok(Simulated::Alarm(AlarmState::try_from(number)?)),
            231 => Ok(Simulated::Door(DoorStatus::try_from(number)?)),
            233 => Ok(Simulated::Lock(LockStatus::try_from(number)?)),
            _ => Err(Cause::NoSuchItem),
        }
    }

    /// Whether it is an alarm state that the settings mask.
    pub(crate) fn is_masked(self, settings: &Settings) -> bool
        ensures { result ≡ masks settings.now self }
    {
        match self {
            Simulated::Door(_) | Simulated::Lock(_) => false,
            Simulated::Alarm(state) => state.is_in(settings.masked_alarm_values),
        }
    }
}
