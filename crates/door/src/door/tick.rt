ghost use Rattle.std.specs.Prelude.{◌≡◌, ◌<◌};
ghost use Rattle.door.specs.Tick.{released_after, sensed_at_tick, held_row, event_next, tick_answer, ticked_of};

use crate::door::{Door, Ticked};
use crate::row::Row;
use board::refusal::Cause;
use board::status::{DoorStatus, LockStatus, Output};
use door_parts::sensed::Sensed;
use events::event::{EventState, class_of};

/// The count of released tenths after a tick that finds the output so.
// That the last tenth is not reached stands at each private step of a tick: the door's own tick refuses there, and a type for such rows
// would be made and taken apart in it alone.
fn released_after(output: Output, released_tenths: u32) -> u32
    requires { released_tenths < 2000000000 }
    ensures { result ≡ released_after output released_tenths }
{
    match output {
        Output::Held => released_tenths,
        Output::Released => released_tenths + 1,
    }
}

// Contact and reading come as two, as a board is asked for them: a door knows no board.

/// In service the states follow the board; then a door that was open under LOCK, and is open still, counts one more.
fn sense(row: &Row, contact: DoorStatus, reading: LockStatus) -> Sensed
    ensures { result ≡ sensed_at_tick row.now contact reading }
{
    let value = row.commanded.present_value;
    let was = row.sensed.is_open_under(value);
    let followed = if row.out_of_service {
        row.sensed
    } else {
        row.sensed.with_status(value, contact).with_lock(reading)
    };
    followed.counted_open(was)
}

/// The tick up to its settling, and the held count.
fn hold(row: Row, contact: DoorStatus, reading: LockStatus) -> Row
    requires { row.released_tenths < 2000000000 }
    ensures { result ≡ held_row row contact reading }
{
    let before = row.sensed.alarm_state;
    let timed = Row {
        released_tenths: released_after(row.commanded.output, row.released_tenths),
        sensed: sense(&row, contact, reading),
        commanded: row.commanded.ticked(),
        ..row
    };
    let settled = timed.settled(before);
    Row {
        sensed: settled.sensed.held_longer(before),
        ..settled
    }
}

/// Where the alarm state, as it is held, leads the Event_State.
fn next_event(row: &Row) -> EventState
    ensures { result ≡ event_next row.now }
{
    let settings = &row.settings;
    let alarm = row.sensed.alarm_state;
    let class = class_of(alarm, settings.alarm_values, settings.fault_values);
    row.events
        .event_state
        .after(class, row.sensed.held_count, settings.time_delay)
}

impl Door {
    /// One tick of a tenth, with what the board now says of the door; `tenth` is the tenth that the tick leads to.
    #[tactic(auto, using(crate::proofs::Legal::legal_ticked))]
    pub fn tick(self, contact: DoorStatus, reading: LockStatus, tenth: u32) -> Result<Ticked, Cause>
        ensures { ticked_of result ≡ tick_answer self.row contact reading tenth }
    {
        if self.row.released_tenths >= 2_000_000_000 {
            return Err(Cause::LastTenth);
        }
        let held = hold(self.row, contact, reading);
        let next = next_event(&held);
        let transition = held.events.event_state.transition(next);
        let events = held.events.stepped(next, held.settings.event_enable, tenth);
        let door = Door {
            row: Row { events, ..held },
        };
        Ok(Ticked { door, transition })
    }
}
