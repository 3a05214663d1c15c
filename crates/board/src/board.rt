ghost use Rattle.std.specs.Prelude.{◌≡◌, ℕ, ◌≤◌, List, length};
ghost use Rattle.board.specs.declared.status.Output.{Output};
ghost use Rattle.board.specs.Held.{Held, Sound, with_output, with_inputs, if_driven, if_told};
ghost use Rattle.board.specs.Held.{output_answer, contact_answer, reading_answer, drive_answer, tick_answer};

use crate::refusal::Refusal;
use crate::status::{DoorStatus, LockStatus, Output};

/// The hardware of a panel: n doors (1 to 64), each with a lock output, a contact and a lock monitor, and one sounder
/// output. Outputs 0 to n - 1 are the doors' locks, output n is the sounder. Each tick brings it `width` bytes.
pub trait Board {
    // The type of all that a board holds, hidden state included.
    ghost Memory: { Type 0 };

    ghost memory: { Self → Memory };

    // What of it can be asked.
    ghost held: { Memory → Held };

    // The board's own rule for a drive: what it holds after one.
    ghost driven: { Memory → ℕ → Output → Memory };

    // The board's own rule for an accepted tick: what it holds after one.
    ghost told: { Memory → List ℕ → Memory };

    fn doors(&self) -> usize
        ensures { result ≡ (held (memory self.now)).doors };

    /// How many bytes a tick takes.
    fn width(&self) -> usize
        ensures { result ≡ (held (memory self.now)).width };

    fn output(&self, output: usize) -> Result<Output, Refusal>
        ensures { result ≡ output_answer (held (memory self.now)) output };

    fn contact(&self, door: usize) -> Result<DoorStatus, Refusal>
        ensures { result ≡ contact_answer (held (memory self.now)) door };

    fn reading(&self, door: usize) -> Result<LockStatus, Refusal>
        ensures { result ≡ reading_answer (held (memory self.now)) door };

    fn drive(&mut self, output: usize, to: Output) -> Result<(), Refusal>
        ensures value { result ≡ drive_answer (held (memory self.old)) output }
        ensures after { memory self.new ≡ if_driven (held (memory self.old)) output (driven (memory self.old) output to) (memory self.old) };

    fn tick(&mut self, bytes: &[u8]) -> Result<(), Refusal>
        ensures value { result ≡ tick_answer (held (memory self.old)) bytes.now }
        ensures after { memory self.new ≡ if_told (held (memory self.old)) bytes.now (told (memory self.old) bytes.now) (memory self.old) };

    ghost sound: { (b : Self) → Sound (held (memory b)) };

    // A drive sets that output alone.
    ghost drives: { (b : Self) → (i : ℕ) → (v : Output) → i ≤ (held (memory b)).doors → held (driven (memory b) i v) ≡ with_output (held (memory b)) i v };

    // A tick changes the inputs alone.
    ghost tells: { (b : Self) → (bs : List ℕ) → length bs ≡ (held (memory b)).width → held (told (memory b) bs) ≡ with_inputs (held (memory b)) (held (told (memory b) bs)).inputs };
}
