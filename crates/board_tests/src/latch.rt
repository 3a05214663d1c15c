ghost use Rattle.std.specs.Prelude.{◌≡◌, length};

use board::status::{DoorStatus, LockStatus, Output};

mod calls;

// A board of two doors that is as odd as a board may be: it takes no bytes, its outputs start released and its
// contacts open, its locks read what was driven, and its contacts change with a hidden count of drives. Its tables are
// arrays, since a board allocates nothing.
#[derive(Drop)]
pub struct LatchBoard {
    outputs: [Output; 3],
    contact: DoorStatus,
    readings: [LockStatus; 2],
    drives: u8,
    ghost outs: { length outputs ≡ 3 },
    ghost reads: { length readings ≡ 2 },
}
