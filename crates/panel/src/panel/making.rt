ghost use Rattle.std.specs.Prelude.{◌≡◌, ◌+◌, ◌≤◌};
ghost use Rattle.history.specs.Views.{fresh_view, all_driven};
ghost use Rattle.board.specs.declared.status.Output.TheVariants.{Held};
ghost use Rattle.panel.specs.Look.{view};

use crate::panel::Panel;
use board::board::Board;
use board::status::Output;
use door::row::Row;
use notices::waiting::Waiting;
use slots::sounder::Sounder;

fn hold<B: Board>(board: &mut B, output: usize)
    requires { output ≤ (B.held (B.memory board.old)).doors }
    ensures { B.memory board.new ≡ B.driven (B.memory board.old) output Held }
{
    board.drive(output, Output::Held).unwrap();
}

impl<B: Board> Panel<B> {
    /// A panel over this board, whatever the board had: every output is driven to held.
    pub fn new(board: B, number: u32, tenth: u32) -> Panel<B>
        ensures value { view B.held B.memory result ≡ fresh_view (B.held (B.memory board)) number tenth }
        ensures memory { B.memory result.board ≡ all_driven B.driven ((B.held (B.memory board)).doors + 1) (B.memory board) }
    {
        let mut board = board;
        // By number, as the trait `Board` asks for an output.
        for output in 0..board.doors() + 1 {
            hold(&mut board, output);
        }
        Panel {
            board,
            rows: [Row::at_making(); 64],
            sounder: Sounder::at_making(),
            waiting: [Waiting::none(); 64],
            next_serial: 1,
            reported: [Row::at_making().report_row(); 64],
            number,
            tenth,
        }
    }

    /// The board, for asking.
    pub fn board(&self) -> &B
        ensures { result.now ≡ self.now.board }
    {
        &self.board
    }
}
