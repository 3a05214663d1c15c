ghost use Rattle.std.specs.Prelude.{◌≡◌};
ghost use Rattle.door.specs.Row.{row_at_making, legal, settled};

use door_parts::commanded::Commanded;
use door_parts::sensed::Sensed;
use door_parts::settings::Settings;
use events::alarm::AlarmState;
use events::event::Events;

/// A door as a plain row of a table: all that is kept of it.
#[derive(Clone, Copy)]
pub struct Row {
    pub settings: Settings,
    pub commanded: Commanded,
    pub out_of_service: bool,
    pub sensed: Sensed,
    pub events: Events,
    /// For how many ticks its output has been released.
    pub released_tenths: u32,
}

impl Row {
    pub fn at_making() -> Row
        ensures { result ≡ row_at_making }
    {
        Row {
            settings: Settings::at_making(),
            commanded: Commanded::at_making(),
            out_of_service: false,
            sensed: Sensed::at_making(),
            events: Events::at_making(),
            released_tenths: 0,
        }
    }

    /// Whether a door may be made of it: its default is no pulse, and each pulse in a slot has time left.
    pub(crate) fn is_legal(&self) -> bool
        ensures { result ≡ legal self.now }
    {
        if self.settings.relinquish_default.is_pulse() {
            return false;
        }
        self.commanded.slots.are_timed()
    }

    /// Settles after a call: what follows from what was written is worked out again. `before` is the alarm state as the
    /// call began.
    pub(crate) fn settled(self, before: AlarmState) -> Row
        ensures { result ≡ settled self before }
    {
        let commanded = self.commanded.settled(&self.settings, self.out_of_service);
        let sensed = self.sensed.settled(
            &self.settings,
            self.out_of_service,
            commanded.present_value,
            before,
        );
        Row {
            commanded,
            sensed,
            ..self
        }
    }
}
