ghost use Rattle.std.specs.Prelude.{◌≡◌, ◌≤◌, length};

use board::status::{DoorStatus, LockStatus, Output};

mod calls;

/// What one door's contact and lock monitor say.
#[derive(Clone, Copy)]
pub struct Input {
    pub contact: DoorStatus,
    pub reading: LockStatus,
}

/// What a board of at most 64 doors keeps of its outputs and inputs; past the last door the tables are not used. They are
/// arrays, since a board allocates nothing.
#[derive(Drop)]
pub struct Terminals {
    doors: usize,
    width: usize,
    outputs: [Output; 65],
    inputs: [Input; 64],
    ghost some: { 1 ≤ doors },
    ghost few: { doors ≤ 64 },
    ghost narrow: { width ≤ 4096 },
    ghost outs: { length outputs ≡ 65 },
    ghost ins: { length inputs ≡ 64 },
}
