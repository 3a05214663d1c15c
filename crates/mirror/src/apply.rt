ghost use Rattle.std.specs.Prelude.{◌≡◌, length};
ghost use Rattle.mirror.specs.Apply.{applied, apply_answer, mirror_after};

use crate::record::{Record, are_within};
use board::refusal::{Cause, Layer, Refusal};
use door::shown::ReportRow;
use report::fields::Fields;

/// A row with the fields that are there in place of its own.
fn merged(row: ReportRow, fields: &Fields) -> ReportRow
    ensures { result ≡ applied row fields.now }
{
    ReportRow {
        present_value: fields.present_value.unwrap_or(row.present_value),
        status_flags: fields.status_flags.unwrap_or(row.status_flags),
        door_alarm_state: fields.door_alarm_state.unwrap_or(row.door_alarm_state),
        door_status: fields.door_status.unwrap_or(row.door_status),
        lock_status: fields.lock_status.unwrap_or(row.lock_status),
        secured_status: fields.secured_status.unwrap_or(row.secured_status),
        output: fields.output.unwrap_or(row.output),
        released_tenths: fields.released_tenths.unwrap_or(row.released_tenths),
    }
}

/// Applies a record to one row of the mirror; a refused one leaves it as it is.
pub fn apply(mirror: &mut [ReportRow], record: &Record) -> Result<(), Refusal>
    ensures value { result ≡ apply_answer (length mirror.old) «record».now }
    ensures after { mirror.new ≡ mirror_after mirror.old «record».now }
{
    // A test and an index: with `get_mut` what the mirror is after the call was not proved.
    if record.door >= mirror.len() || !are_within(&record.fields) {
        return Err(Refusal::of(Layer::Records, Cause::BadRecord, record.offset));
    }
    mirror[record.door] = merged(mirror[record.door], &record.fields);
    Ok(())
}
