ghost use Rattle.std.specs.Prelude.{◌≡◌, ◌≤◌, length, take, IfOk};
ghost use Rattle.report.specs.Writing.{report_answer, report_buffer};
ghost use Rattle.mirror.specs.Mirrored.{Mirrors, records_from};
ghost use Rattle.mirror.specs.Ranges.{InRange};

use board::refusal::Refusal;
use door::shown::ReportRow;
use report::write::write_report;

/// Writes the report of the rows that are not as last reported.
// A function of its own, so that a wrong call of the writer is refused here and not in the proof of what `report_to_mirror` says of the way back.
fn write_changes(
    last: &[ReportRow],
    rows: &[ReportRow],
    buffer: &mut [u8],
) -> Result<usize, Refusal>
    ensures value { result ≡ report_answer last.now rows.now buffer.old }
    ensures after { buffer.new ≡ report_buffer last.now rows.now buffer.old }
{
    write_report(last, rows, buffer)
}

/// Writes a report. What it writes, read record by record and applied to a mirror that equals the rows last reported,
/// gives the rows now.
pub fn report_to_mirror(
    last: &[ReportRow],
    rows: &[ReportRow],
    buffer: &mut [u8],
) -> Result<usize, Refusal>
    ensures value { result ≡ report_answer last.now rows.now buffer.old }
    ensures after { buffer.new ≡ report_buffer last.now rows.now buffer.old }
    ensures back { IfOk result (λ n. length last.now ≡ length rows.now → length rows.now ≤ 64 → InRange rows.now → Mirrors (take n buffer.new) 0 last.now (records_from last.now rows.now 0 (length rows.now)) rows.now) }
{
    write_changes(last, rows, buffer)
}
