ghost use Rattle.std.specs.Prelude.{◌≡◌};
ghost use Rattle.slots.specs.Sounder.{sounder_present};
ghost use Rattle.history.specs.SounderCall.{sounder_output, with_sounder, written, sounder_outcome, sounder_after, sounder_memory};
ghost use Rattle.panel.specs.Look.{view};

use crate::panel::Panel;
use board::board::Board;
use board::refusal::{Layer, Refusal};
use board::status::Output;
use slots::sounder::{Sounder, SounderValue};

// No `From`: neither type is of this crate.
fn output_for(value: SounderValue) -> Output
    ensures { result ≡ sounder_output value }
{
    match value {
        SounderValue::Inactive => Output::Held,
        SounderValue::Active => Output::Released,
    }
}

/// Drives the output behind those of the doors to the value that rules the sounder.
fn drive_sounder<B: Board>(board: &mut B, sounder: &Sounder)
    ensures { B.memory board.new ≡ B.driven (B.memory board.old) (B.held (B.memory board.old)).doors (sounder_output (sounder_present sounder.now)) }
{
    let doors = board.doors();
    board.drive(doors, output_for(sounder.present())).unwrap();
}

impl<B: Board> Panel<B> {
    fn put_sounder(&mut self, sounder: Sounder)
        ensures after { view B.held B.memory self.new ≡ with_sounder (view B.held B.memory self.old) sounder }
        ensures memory { B.memory self.new.board ≡ B.driven (B.memory self.old.board) (B.held (B.memory self.old.board)).doors (sounder_output (sounder_present sounder)) }
    {
        self.sounder = sounder;
        drive_sounder(&mut self.board, &sounder);
    }

    /// Writes a value, or NULL, at a priority of the sounder.
    pub fn write_sounder(&mut self, priority: u64, value: Option<u64>) -> Result<(), Refusal>
        ensures value { result ≡ sounder_outcome (view B.held B.memory self.old) (written (view B.held B.memory self.old) priority value) }
        ensures after { view B.held B.memory self.new ≡ sounder_after (view B.held B.memory self.old) (written (view B.held B.memory self.old) priority value) }
        ensures memory { B.memory self.new.board ≡ sounder_memory B.driven (view B.held B.memory self.old) (written (view B.held B.memory self.old) priority value) (B.memory self.old.board) }
    {
        let place = self.board.doors();
        let sounder = self
            .sounder
            .command(priority, value)
            .map_err(|cause| Refusal::of(Layer::Panel, cause, place))?;
        self.put_sounder(sounder);
        Ok(())
    }
}
