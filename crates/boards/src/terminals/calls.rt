ghost use Rattle.std.specs.Prelude.{◌≡◌, ◌+◌, ◌<◌, ◌≤◌, slice_set};
ghost use Rattle.board.specs.Held.{with_output, if_driven, output_answer, contact_answer, reading_answer, drive_answer};
ghost use Rattle.boards.specs.Terminals.{terminals, fresh, input_answer};

use crate::terminals::{Input, Terminals};
use board::refusal::Refusal;
use board::status::{DoorStatus, LockStatus, Output};

impl Terminals {
    /// All outputs held, and nothing known of any door yet.
    pub(crate) fn new(doors: usize, width: usize) -> Terminals
        requires some { 1 ≤ doors }
        requires few { doors ≤ 64 }
        requires narrow { width ≤ 4096 }
        ensures { terminals result ≡ fresh doors width }
    {
        Terminals {
            doors,
            width,
            outputs: [Output::Held; 65],
            inputs: [Input {
                contact: DoorStatus::Unknown,
                reading: LockStatus::Unknown,
            }; 64],
        }
    }

    pub(crate) fn doors(&self) -> usize
        ensures { result ≡ self.now.doors }
    {
        self.doors
    }

    pub(crate) fn width(&self) -> usize
        ensures { result ≡ self.now.width }
    {
        self.width
    }

    /// The input of a door, if there is that door.
    fn input(&self, door: usize) -> Result<Input, Refusal>
        ensures { result ≡ input_answer self.now door }
    {
        if door >= self.doors {
            return Err(Refusal::no_such_output(door));
        }
        Ok(self.inputs[door])
    }

    pub(crate) fn output(&self, output: usize) -> Result<Output, Refusal>
        ensures { result ≡ output_answer (terminals self.now) output }
    {
        if output > self.doors {
            return Err(Refusal::no_such_output(output));
        }
        Ok(self.outputs[output])
    }

    pub(crate) fn contact(&self, door: usize) -> Result<DoorStatus, Refusal>
        ensures { result ≡ contact_answer (terminals self.now) door }
    {
        Ok(self.input(door)?.contact)
    }

    pub(crate) fn reading(&self, door: usize) -> Result<LockStatus, Refusal>
        ensures { result ≡ reading_answer (terminals self.now) door }
    {
        Ok(self.input(door)?.reading)
    }

    pub(crate) fn drive(&mut self, output: usize, to: Output) -> Result<(), Refusal>
        ensures value { result ≡ drive_answer (terminals self.old) output }
        ensures doors { self.new.doors ≡ self.old.doors }
        ensures width { self.new.width ≡ self.old.width }
        ensures after { terminals self.new ≡ if_driven (terminals self.old) output (with_output (terminals self.old) output to) (terminals self.old) }
    {
        if output > self.doors {
            return Err(Refusal::no_such_output(output));
        }
        self.outputs[output] = to;
        Ok(())
    }

    /// From here on the door's contact and lock monitor say this.
    pub(crate) fn set_input(&mut self, door: usize, input: Input)
        requires { door < self.old.doors }
        ensures doors { self.new.doors ≡ self.old.doors }
        ensures width { self.new.width ≡ self.old.width }
        ensures outputs { self.new.outputs ≡ self.old.outputs }
        ensures inputs { self.new.inputs ≡ slice_set self.old.inputs door input }
    {
        self.inputs[door] = input;
    }
}
