ghost use Rattle.std.specs.Prelude.{◌≡◌, ◌+◌, ◌*◌, ◌≤◌, true, length};
ghost use Rattle.history.specs.Kept.{all_kept};

use door::row::Row;
use door::shown::ReportRow;
use notices::waiting::Waiting;
use slots::sounder::Sounder;

mod door_calls;
mod making;
mod notify;
mod reporting;
mod sounder;
mod tick;

/// A panel: a board, and for each of its doors a row of a table of 64. Only its calls change it or its board.
// Arrays, since no call allocates; three of them, since each is handed on alone, as the rows last reported to the writer of reports.
// No Model: its Value would need the type of the board's memory, which a Model can't name.
#[derive(Drop)]
pub struct Panel<B> {
    board: B,
    rows: [Row; 64],
    sounder: Sounder,
    waiting: [Waiting; 64],
    next_serial: u64,
    reported: [ReportRow; 64],
    number: u32,
    tenth: u32,
    ghost table: { length rows ≡ 64 },
    ghost queue: { length waiting ≡ 64 },
    ghost memo: { length reported ≡ 64 },
    // Each row makes a door.
    ghost kept: { all_kept tenth rows ≡ true },
    // A tick raises a notice for a door at most.
    ghost serials: { next_serial ≤ 64 * tenth + 1 },
}
