ghost use Rattle.std.specs.Prelude.{◌≡◌, ◌<◌, Result, true, nat_lt};
ghost use Rattle.board.specs.declared.refusal.Cause.{Cause};
ghost use Rattle.door.specs.declared.row.Row.{Row};
ghost use Rattle.door.specs.Calls.{row_of};
ghost use Rattle.history.specs.Views.{row_at, with_row, drives_door};
ghost use Rattle.history.specs.DoorCalls.{outcome, stored, stored_memory, call_answer, call_after, call_memory};
ghost use Rattle.history.specs.DoorCalls.{commanded, set_to, simulated, serviced, acknowledged};
ghost use Rattle.history.specs.Kept.{kept, MadeKept};
ghost use Rattle.panel.specs.Calls.{Makes, LeavesTenths};
ghost use Rattle.panel.specs.Look.{view};

use crate::panel::Panel;
use board::board::Board;
use board::refusal::{Cause, Layer, Refusal};
use door::door::Door;
use door::row::Row;

/// Drives the output of a door as its row says, in service.
pub(crate) fn drive_door<B: Board>(board: &mut B, door: usize, row: &Row)
    requires { door < (B.held (B.memory board.old)).doors }
    ensures { B.memory board.new ≡ drives_door B.driven (B.memory board.old) door row.now }
{
    if !row.out_of_service {
        board.drive(door, row.commanded.output).unwrap();
    }
}

// Private methods ask for a number below that of the board's doors: a type for such numbers would have to name the panel.
impl<B: Board> Panel<B> {
    fn has_door(&self, door: usize) -> bool
        ensures { result ≡ nat_lt door (B.held (B.memory self.now.board)).doors }
    {
        door < self.board.doors()
    }

    /// The row of a door, which makes a door.
    fn row_at(&self, door: usize) -> Row
        requires { door < (B.held (B.memory self.now.board)).doors }
        ensures value { result ≡ row_at (view B.held B.memory self.now) door }
        ensures kept { kept self.now.tenth result ≡ true }
    {
        self.rows[door]
    }

    pub(crate) fn door_at(&self, door: usize) -> Door
        requires { door < (B.held (B.memory self.now.board)).doors }
        ensures { result.row ≡ row_at (view B.held B.memory self.now) door }
    {
        Door::from_row(self.row_at(door)).unwrap()
    }

    /// Stores the row of a door, and drives its output.
    pub(crate) fn put(&mut self, door: usize, row: Row)
        requires { (door < (B.held (B.memory self.old.board)).doors) × (kept self.old.tenth row ≡ true) }
        ensures after { view B.held B.memory self.new ≡ with_row (view B.held B.memory self.old) door row }
        ensures memory { B.memory self.new.board ≡ drives_door B.driven (B.memory self.old.board) door row }
    {
        self.rows[door] = row;
        drive_door(&mut self.board, door, &row);
    }

    /// Stores what a call made of a door, or refuses with its cause.
    fn finish(&mut self, door: usize, made: Result<Door, Cause>) -> Result<(), Refusal>
        requires { (door < (B.held (B.memory self.old.board)).doors) × (MadeKept self.old.tenth (row_of made)) }
        ensures value { result ≡ outcome door (row_of made) }
        ensures after { view B.held B.memory self.new ≡ stored (view B.held B.memory self.old) door (row_of made) }
        ensures memory { B.memory self.new.board ≡ stored_memory B.driven (B.memory self.old.board) door (row_of made) }
    {
        // A match and no `map_err`, with which the door is copied more often: five calls on a door and a sounder write took half as
        // many instructions again.
        match made {
            Ok(changed) => {
                self.put(door, changed.into_row());
                Ok(())
            }
            Err(cause) => Err(Refusal::of(Layer::Panel, cause, door)),
        }
    }

    /// A call on a door: what it makes of the door is stored, or it is refused with its cause. A door that there is not is
    /// refused first.
    fn call_door<F: FnOnce(Door) -> Result<Door, Cause>>(
        &mut self,
        door: usize,
        call: F,
    ) -> Result<(), Refusal>
        requires callable { F.IsAlwaysCallable call }
        requires leaves { LeavesTenths F.post call }
        ensures value { (f : Row → Result Row Cause) → Makes F.post call f → result ≡ call_answer (view B.held B.memory self.old) door (f (row_at (view B.held B.memory self.old) door)) }
        ensures after { (f : Row → Result Row Cause) → Makes F.post call f → view B.held B.memory self.new ≡ call_after (view B.held B.memory self.old) door (f (row_at (view B.held B.memory self.old) door)) }
        ensures memory { (f : Row → Result Row Cause) → Makes F.post call f → B.memory self.new.board ≡ call_memory B.driven (view B.held B.memory self.old) door (f (row_at (view B.held B.memory self.old) door)) (B.memory self.old.board) }
    {
        if !self.has_door(door) {
            return Err(Refusal::of(Layer::Panel, Cause::NoSuchDoor, door));
        }
        let made = call(self.door_at(door));
        self.finish(door, made)
    }

    // Five calls of one shape, each with the equations of its own.

    /// Writes a value, or NULL, at a priority of a door.
    pub fn command(&mut self, door: usize, priority: u64, value: Option<u64>) -> Result<(), Refusal>
        ensures value { result ≡ call_answer (view B.held B.memory self.old) door (commanded (view B.held B.memory self.old) door priority value) }
        ensures after { view B.held B.memory self.new ≡ call_after (view B.held B.memory self.old) door (commanded (view B.held B.memory self.old) door priority value) }
        ensures memory { B.memory self.new.board ≡ call_memory B.driven (view B.held B.memory self.old) door (commanded (view B.held B.memory self.old) door priority value) (B.memory self.old.board) }
    {
        self.call_door(door, |d| d.command(priority, value))
    }

    /// Sets an item of a door.
    pub fn set(&mut self, door: usize, item: u64, number: u64) -> Result<(), Refusal>
        ensures value { result ≡ call_answer (view B.held B.memory self.old) door (set_to (view B.held B.memory self.old) door item number) }
        ensures after { view B.held B.memory self.new ≡ call_after (view B.held B.memory self.old) door (set_to (view B.held B.memory self.old) door item number) }
        ensures memory { B.memory self.new.board ≡ call_memory B.driven (view B.held B.memory self.old) door (set_to (view B.held B.memory self.old) door item number) (B.memory self.old.board) }
    {
        self.call_door(door, |d| d.set(item, number))
    }

    /// Writes what is sensed of a door that is out of service.
    pub fn simulate(&mut self, door: usize, item: u64, number: u64) -> Result<(), Refusal>
        ensures value { result ≡ call_answer (view B.held B.memory self.old) door (simulated (view B.held B.memory self.old) door item number) }
        ensures after { view B.held B.memory self.new ≡ call_after (view B.held B.memory self.old) door (simulated (view B.held B.memory self.old) door item number) }
        ensures memory { B.memory self.new.board ≡ call_memory B.driven (view B.held B.memory self.old) door (simulated (view B.held B.memory self.old) door item number) (B.memory self.old.board) }
    {
        self.call_door(door, |d| d.simulate(item, number))
    }

    /// Takes a door out of service (1) or into it (0).
    pub fn service(&mut self, door: usize, number: u64) -> Result<(), Refusal>
        ensures value { result ≡ call_answer (view B.held B.memory self.old) door (serviced (view B.held B.memory self.old) door number) }
        ensures after { view B.held B.memory self.new ≡ call_after (view B.held B.memory self.old) door (serviced (view B.held B.memory self.old) door number) }
        ensures memory { B.memory self.new.board ≡ call_memory B.driven (view B.held B.memory self.old) door (serviced (view B.held B.memory self.old) door number) (B.memory self.old.board) }
    {
        self.call_door(door, |d| d.service(number))
    }

    /// Acknowledges a transition of a door.
    pub fn acknowledge(&mut self, door: usize, number: u64) -> Result<(), Refusal>
        ensures value { result ≡ call_answer (view B.held B.memory self.old) door (acknowledged (view B.held B.memory self.old) door number) }
        ensures after { view B.held B.memory self.new ≡ call_after (view B.held B.memory self.old) door (acknowledged (view B.held B.memory self.old) door number) }
        ensures memory { B.memory self.new.board ≡ call_memory B.driven (view B.held B.memory self.old) door (acknowledged (view B.held B.memory self.old) door number) (B.memory self.old.board) }
    {
        self.call_door(door, |d| d.acknowledge(number))
    }
}
