ghost use Rattle.std.specs.Prelude.{◌≡◌, ◌+◌, ◌*◌, ◌<◌, ◌≤◌};
ghost use Rattle.history.specs.Views.{with_notices};
ghost use Rattle.history.specs.Ticks.{notice_of, raised, raised_by};
ghost use Rattle.panel.specs.Look.{view};

use crate::panel::Panel;
use board::board::Board;
use door::row::Row;
use events::event::Transition;
use notices::notice::Notice;

fn notice_of(serial: u64, door: usize, row: &Row, transition: Transition) -> Notice
    ensures { result ≡ notice_of serial door row.now transition }
{
    Notice {
        serial,
        door,
        transition,
        alarm_state: row.sensed.alarm_state,
        status_flags: row.status_flags(),
    }
}

// That a serial is left stands at each private step that may raise a notice: the bound goes by the tenth, which is the panel's.
impl<B: Board> Panel<B> {
    /// A notice waits, and the next has the next serial.
    fn keep(&mut self, notice: Notice)
        requires { (notice.door < (B.held (B.memory self.old.board)).doors) × (self.old.next_serial ≤ 64 * self.old.tenth) }
        ensures after { view B.held B.memory self.new ≡ with_notices (view B.held B.memory self.old) (raised (view B.held B.memory self.old).notices notice) }
        ensures board { self.new.board ≡ self.old.board }
    {
        let waiting = self.waiting[notice.door];
        self.waiting[notice.door] = waiting.with(notice);
        self.next_serial += 1;
    }

    /// Raises the notice of a transition of a door that led to this row, where the transition is enabled.
    pub(crate) fn raise(&mut self, door: usize, row: &Row, transition: Option<Transition>)
        requires { (door < (B.held (B.memory self.old.board)).doors) × (self.old.next_serial ≤ 64 * self.old.tenth) }
        ensures after { view B.held B.memory self.new ≡ with_notices (view B.held B.memory self.old) (raised_by (view B.held B.memory self.old).notices door row.now transition) }
        ensures board { self.new.board ≡ self.old.board }
    {
        let Some(known) = transition else {
            return;
        };
        if !known.is_in(row.settings.event_enable) {
            return;
        }
        self.keep(notice_of(self.next_serial, door, row, known));
    }
}
