ghost use Rattle.std.specs.Prelude.{◌≡◌, ◌++◌, IfOk, string_bytes, OnOk};
ghost use Rattle.decoding.specs.Said.{text_in, fields_text, record_text, all_fields, row_text};

use crate::field::{FIELDS, Field};
use door::shown::ReportRow;
use mirror::record::Record;
use report::fields::Fields;
use std::alloc::{AllocError, Global};

/// Writes a field that is there, behind a blank.
fn push_field(out: &mut String, field: Field, fields: &Fields) -> Result<(), AllocError>
    ensures { OnOk result (string_bytes out.new ≡ string_bytes out.old ++ text_in fields.now field) }
{
    let Some(number) = field.value_in(fields) else {
        return Ok(());
    };
    write!(out, " {field}=")?;
    field.push_value(out, number)
}

/// The fields that are there, each behind a blank.
fn fields_text(heap: Global, fields: &Fields) -> Result<String, AllocError>
    ensures { IfOk result (λ s. string_bytes s ≡ fields_text fields.now) }
{
    let mut out = String::new(heap);
    for field in FIELDS {
        push_field(&mut out, field, fields)?;
    }
    Ok(out)
}

/// A record: its offset, its door, and the fields that it has, by name.
pub fn record_text(heap: Global, record: &Record) -> Result<String, AllocError>
    ensures { IfOk result (λ s. string_bytes s ≡ record_text «record».now) }
{
    let offset = record.offset;
    let door = record.door;
    let fields = fields_text(heap, &record.fields)?;
    format!(in heap; "record {offset} door {door}{fields}")
}

fn all_fields(row: &ReportRow) -> Fields
    ensures { result ≡ all_fields row.now }
{
    Fields {
        present_value: Some(row.present_value),
        status_flags: Some(row.status_flags),
        door_alarm_state: Some(row.door_alarm_state),
        door_status: Some(row.door_status),
        lock_status: Some(row.lock_status),
        secured_status: Some(row.secured_status),
        output: Some(row.output),
        released_tenths: Some(row.released_tenths),
    }
}

/// A row of a mirror: its door, and all its fields, by name.
pub fn row_text(heap: Global, door: usize, row: &ReportRow) -> Result<String, AllocError>
    ensures { IfOk result (λ s. string_bytes s ≡ row_text door row.now) }
{
    let fields = fields_text(heap, &all_fields(row))?;
    format!(in heap; "door {door}{fields}")
}
