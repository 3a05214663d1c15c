ghost use Rattle.std.specs.Prelude.{◌≡◌};
ghost use Rattle.board_tests.specs.Latch.{Latch, latch_memory, latch_held, latch_driven, latch_told, latch_fresh};
ghost use Rattle.board_tests.specs.Latch.{drives_after, contact_after, lock_of};
ghost use Rattle.std.proofs.Common.{rules};

use crate::latch::LatchBoard;
use board::board::Board;
use board::refusal::Refusal;
use board::status::{DoorStatus, LockStatus, Output};

fn drives_after(drives: u8) -> u8
    ensures { result ≡ drives_after drives }
{
    if drives < 255 { drives + 1 } else { 0 }
}

fn contact_after(drives: u8) -> DoorStatus
    ensures { result ≡ contact_after drives }
{
    if drives % 2 == 0 {
        DoorStatus::Closed
    } else {
        DoorStatus::Opened
    }
}

fn lock_of(output: Output) -> LockStatus
    ensures { result ≡ lock_of output }
{
    match output {
        Output::Held => LockStatus::Locked,
        Output::Released => LockStatus::Unlocked,
    }
}

impl LatchBoard {
    pub fn new() -> LatchBoard
        ensures { latch_memory result ≡ latch_fresh }
    {
        LatchBoard {
            outputs: [Output::Released; 3],
            contact: DoorStatus::Opened,
            readings: [LockStatus::Fault; 2],
            drives: 0,
        }
    }
}

impl Board for LatchBoard {
    ghost Memory = { Latch };

    ghost memory = { latch_memory };

    ghost held = { latch_held };

    ghost driven = { latch_driven };

    ghost told = { latch_told };

    ghost sound = { Prim.search rules };

    ghost drives = { Prim.search rules };

    ghost tells = { Prim.search rules };

    fn doors(&self) -> usize {
        2
    }

    fn width(&self) -> usize {
        0
    }

    fn output(&self, output: usize) -> Result<Output, Refusal> {
        if output > 2 {
            return Err(Refusal::no_such_output(output));
        }
        Ok(self.outputs[output])
    }

    fn contact(&self, door: usize) -> Result<DoorStatus, Refusal> {
        if door >= 2 {
            return Err(Refusal::no_such_output(door));
        }
        Ok(self.contact)
    }

    fn reading(&self, door: usize) -> Result<LockStatus, Refusal> {
        if door >= 2 {
            return Err(Refusal::no_such_output(door));
        }
        Ok(self.readings[door])
    }

    fn drive(&mut self, output: usize, to: Output) -> Result<(), Refusal> {
        if output > 2 {
            return Err(Refusal::no_such_output(output));
        }
        self.outputs[output] = to;
        self.drives = drives_after(self.drives);
        Ok(())
    }

    fn tick(&mut self, bytes: &[u8]) -> Result<(), Refusal> {
        if !bytes.is_empty() {
            return Err(Refusal::wrong_tick_length(bytes.len()));
        }
        self.contact = contact_after(self.drives);
        self.readings = [lock_of(self.outputs[0]), lock_of(self.outputs[1])];
        Ok(())
    }
}
