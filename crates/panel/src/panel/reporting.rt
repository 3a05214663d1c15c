ghost use Rattle.std.specs.Prelude.{◌≡◌, map, length, take};
ghost use Rattle.door.specs.Shown.{report_row};
ghost use Rattle.history.specs.Reports.{rows_now, panel_report, panel_buffer, report_after};
ghost use Rattle.panel.specs.Look.{view};

use crate::panel::Panel;
use board::board::Board;
use board::refusal::Refusal;
use door::row::Row;
use door::shown::ReportRow;
use report::write::write_report;

impl<B: Board> Panel<B> {
    /// What a report tells of each door now. Behind the last door it holds rows as at making, which are not reported.
    fn rows_now(&self) -> [ReportRow; 64]
        ensures value { take (B.held (B.memory self.now.board)).doors result ≡ rows_now (view B.held B.memory self.now) }
        ensures len { length result ≡ 64 }
    {
        let mut rows = [Row::at_making().report_row(); 64];
        // The doors' rows alone, and in place: `map` of the array moves the whole table, for one door as for 64.
        let of_doors = &self.rows[..self.board.doors()];
        for (door, row) in of_doors.iter().enumerate() {
            rows[door] = row.report_row();
        }
        rows
    }

    /// Writes a report of what has changed into the buffer, and remembers the rows as reported; a refused one is as if it had not
    /// been asked for.
    pub fn report(&mut self, buffer: &mut [u8]) -> Result<usize, Refusal>
        ensures value { result ≡ panel_report (view B.held B.memory self.old) buffer.old }
        ensures buffer { buffer.new ≡ panel_buffer (view B.held B.memory self.old) buffer.old }
        ensures after { view B.held B.memory self.new ≡ report_after (view B.held B.memory self.old) buffer.old }
        ensures memory { B.memory self.new.board ≡ B.memory self.old.board }
    {
        let rows = self.rows_now();
        let doors = self.board.doors();
        let count = write_report(&self.reported[..doors], &rows[..doors], buffer)?;
        self.reported = rows;
        Ok(count)
    }
}
