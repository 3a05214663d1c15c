ghost use Rattle.std.specs.Prelude.{◌≡◌};
ghost use Rattle.steady.specs.Run.{run_after, run_at_making};

use board::status::DoorStatus;

/// What is kept of one door's contact: the one shown, the one that the last tick gave below, and for how many ticks in
/// a row it has come (no more than 255 are counted, since no more are ever asked for).
#[derive(Clone, Copy)]
pub struct Run {
    pub shown: DoorStatus,
    pub last: DoorStatus,
    pub ticks: u8,
}

impl Run {
    /// Before the first tick.
    pub fn new() -> Run
        ensures { result ≡ run_at_making }
    {
        Run {
            shown: DoorStatus::Unknown,
            last: DoorStatus::Unknown,
            ticks: 0,
        }
    }

    /// After a tick that gave this contact below, where `count` ticks in a row show it.
    pub fn after(self, count: u8, came: DoorStatus) -> Run
        ensures { result ≡ run_after count self came }
    {
        let ticks = if self.last == came {
            self.ticks.saturating_add(1)
        } else {
            1
        };
        let shown = if count <= ticks { came } else { self.shown };
        Run {
            shown,
            last: came,
            ticks,
        }
    }
}
