ghost use Rattle.std.specs.Prelude.{◌≡◌, true};
ghost use Rattle.door.specs.Row.{legal};

use crate::row::Row;
use events::event::Transition;

mod calls;
mod tick;

/// A door: a row whose default is no pulse, and whose pulses in slots have time left.
#[derive(Drop)]
pub struct Door {
    row: Row,
    ghost ok: { legal row ≡ true },
}

/// What a tick made of a door, and the transition of its Event_State, if there was one.
#[derive(Drop)]
pub struct Ticked {
    pub door: Door,
    pub transition: Option<Transition>,
}
