ghost use Rattle.std.specs.Prelude.{◌≡◌, ◌+◌, ◌*◌, ◌<◌, ◌≤◌};
ghost use Rattle.history.specs.Kept.{Room};
ghost use Rattle.history.specs.Views.{doors_of, row_at, drives_door};
ghost use Rattle.history.specs.Ticks.{ticked_door, door_ticked, door_stepped, doors_stepped, doors_driven, is_late, begun_if, told_if, tick_answer, tick_after, tick_memory};
ghost use Rattle.panel.specs.Look.{view};

use crate::panel::Panel;
use board::board::Board;
use board::refusal::{Cause, Layer, Refusal};
use door::door::Ticked;

impl<B: Board> Panel<B> {
    /// What a tick makes of a door, by what the board now says of it.
    fn tick_door(&self, door: usize) -> Ticked
        requires { (door < (B.held (B.memory self.now.board)).doors) × ((row_at (view B.held B.memory self.now) door).released_tenths < 2000000000) }
        ensures { ticked_door result ≡ door_ticked (view B.held B.memory self.now) door }
    {
        let contact = self.board.contact(door).unwrap();
        let reading = self.board.reading(door).unwrap();
        self.door_at(door)
            .tick(contact, reading, self.tenth)
            .unwrap()
    }

    /// The tick of one door: its row and its output follow, and an enabled transition raises a notice.
    fn step_door(&mut self, door: usize)
        requires { (door < (B.held (B.memory self.old.board)).doors) × (((row_at (view B.held B.memory self.old) door).released_tenths < self.old.tenth) × ((self.old.tenth ≤ 2000000000) × (self.old.next_serial ≤ 64 * self.old.tenth))) }
        ensures after { view B.held B.memory self.new ≡ door_stepped (view B.held B.memory self.old) door }
        ensures memory { B.memory self.new.board ≡ drives_door B.driven (B.memory self.old.board) door (door_ticked (view B.held B.memory self.old) door).row }
    {
        let ticked = self.tick_door(door);
        let transition = ticked.transition;
        let row = ticked.door.into_row();
        self.put(door, row);
        self.raise(door, &row, transition);
    }

    /// Whether a tick of the right length comes too late.
    fn is_late(&self, bytes: &[u8]) -> bool
        ensures { result ≡ is_late (view B.held B.memory self.now) bytes.now }
    {
        bytes.len() == self.board.width() && self.tenth >= 2_000_000_000
    }

    /// Gives the board its bytes and counts the tenth. A wrong length is the board's own refusal.
    fn begin(&mut self, bytes: &[u8]) -> Result<(), Refusal>
        ensures value { result ≡ tick_answer (view B.held B.memory self.old) bytes.now }
        ensures after { view B.held B.memory self.new ≡ begun_if (view B.held B.memory self.old) (B.held (B.told (B.memory self.old.board) bytes.now)).inputs bytes.now }
        ensures memory { B.memory self.new.board ≡ told_if (view B.held B.memory self.old) bytes.now (B.told (B.memory self.old.board) bytes.now) (B.memory self.old.board) }
    {
        if self.is_late(bytes) {
            return Err(Refusal::of(Layer::Panel, Cause::LastTenth, 0));
        }
        self.board.tick(bytes)?;
        self.tenth += 1;
        Ok(())
    }

    /// The doors of a tick that has begun, in rising number.
    fn step_doors(&mut self)
        requires { Room (view B.held B.memory self.old) }
        ensures after { view B.held B.memory self.new ≡ doors_stepped (doors_of (view B.held B.memory self.old)) (view B.held B.memory self.old) }
        ensures memory { B.memory self.new.board ≡ doors_driven B.driven (doors_of (view B.held B.memory self.old)) (view B.held B.memory self.old) (B.memory self.old.board) }
    {
        // By number, as the trait `Board` asks for a door.
        for door in 0..self.board.doors() {
            self.step_door(door);
        }
    }

    /// One tick of a tenth: the board is given its bytes, and then the doors follow.
    pub fn tick(&mut self, bytes: &[u8]) -> Result<(), Refusal>
        ensures value { result ≡ tick_answer (view B.held B.memory self.old) bytes.now }
        ensures after { view B.held B.memory self.new ≡ tick_after (view B.held B.memory self.old) (B.held (B.told (B.memory self.old.board) bytes.now)).inputs bytes.now }
        ensures memory { B.memory self.new.board ≡ tick_memory B.driven (view B.held B.memory self.old) (B.held (B.told (B.memory self.old.board) bytes.now)).inputs bytes.now (B.told (B.memory self.old.board) bytes.now) (B.memory self.old.board) }
    {
        self.begin(bytes)?;
        self.step_doors();
        Ok(())
    }
}
