ghost use Rattle.std.specs.Prelude.{◌≡◌, ◌≤◌, length};

use crate::run::Run;

mod calls;

/// A layer over any board that shows a contact only when `count` ticks in a row gave it.
// The runs are an array, since a board allocates nothing.
#[derive(Drop)]
pub struct Steady<B> {
    below: B,
    count: u8,
    runs: [Run; 64],
    ghost some: { 1 ≤ count },
    ghost table: { length runs ≡ 64 },
}
