ghost use Rattle.std.specs.Prelude.{◌≡◌, ◌+◌, ◌<◌, ◌≤◌, ◌∷◌, ◌++◌, length, take, drop};
ghost use Rattle.report.specs.Fields.{width, record_size, field_bytes, fields_between};
ghost use Rattle.report.specs.Writing.{encoded, door_size, door_bytes, report_bytes, report_answer, report_buffer};
ghost use Rattle.std.specs.Iterator.Adapters.{zip_first, zip_second};
ghost use Rattle.std.specs.Slice.Iter.{iter_rest};

use crate::fields::Fields;
use crate::value::FieldValue;
use board::refusal::{Cause, Layer, Refusal};
use door::shown::ReportRow;
use std::iter::Zip;
use std::ops::Range;
use std::slice::Iter;

/// A field from a place of the rest of the buffer on, if it is there; answers where the next field begins.
fn put<const N: usize, V: FieldValue<N>>(rest: &mut [u8], at: usize, value: Option<V>) -> usize
    requires { at + width N value ≤ length rest.old }
    ensures next { result ≡ at + width N value }
    ensures after { rest.new ≡ take at rest.old ++ (field_bytes V.bytes_of value ++ drop (at + width N value) rest.old) }
{
    match value {
        Some(v) => {
            rest[at..at + N].copy_from_slice(&v.to_bytes());
            at + N
        }
        None => at,
    }
}

/// A record at the start of the rest of the buffer.
fn write_record(rest: &mut [u8], door: u8, fields: &Fields) -> usize
    requires { record_size fields.now ≤ length rest.old }
    ensures count { result ≡ record_size fields.now }
    ensures after { rest.new ≡ encoded door fields.now ++ drop (record_size fields.now) rest.old }
{
    rest[0] = fields.map();
    rest[1] = door;
    // Each field begins where the one before ends: a loop over eight fields of two types is no plainer.
    let a = put(rest, 2, fields.present_value);
    let b = put(rest, a, fields.status_flags);
    let c = put(rest, b, fields.door_alarm_state);
    let d = put(rest, c, fields.door_status);
    let e = put(rest, d, fields.lock_status);
    let f = put(rest, e, fields.secured_status);
    let g = put(rest, f, fields.output);
    put(rest, g, fields.released_tenths)
}

fn size_of_door(last: &ReportRow, row: &ReportRow) -> usize
    ensures value { result ≡ door_size (fields_between last.now row.now) }
    ensures most { result ≤ 13 }
{
    let fields = Fields::between(last, row);
    if fields.map() == 0 {
        return 0;
    }
    fields.record_size()
}

/// The record of a door at the start of the rest of the buffer, where its row is not as last reported.
fn write_door(rest: &mut [u8], door: u8, last: &ReportRow, row: &ReportRow) -> usize
    requires { door_size (fields_between last.now row.now) ≤ length rest.old }
    ensures count { result ≡ door_size (fields_between last.now row.now) }
    ensures after { rest.new ≡ door_bytes door (fields_between last.now row.now) ++ drop (door_size (fields_between last.now row.now)) rest.old }
{
    let fields = Fields::between(last, row);
    if fields.map() == 0 {
        return 0;
    }
    write_record(rest, door, &fields)
}

/// The doors of a report, each with its row last reported and its row.
// Two tables of the caller's, here and in what calls this: a struct of both would be made for the one call.
fn doors_of<'a>(
    last: &'a [ReportRow],
    rows: &'a [ReportRow],
) -> Zip<Range<u8>, Zip<Iter<'a, ReportRow>, Iter<'a, ReportRow>>>
    ensures doors { zip_first result ≡ record { start = 0; end = 64 } }
    ensures last { iter_rest (zip_first (zip_second result)) ≡ last.now }
    ensures rows { iter_rest (zip_second (zip_second result)) ≡ rows.now }
{
    (0..64).zip(last.iter().zip(rows))
}

/// How many bytes the report takes.
fn report_size(last: &[ReportRow], rows: &[ReportRow]) -> usize
    ensures { result ≡ length (report_bytes last.now rows.now) }
{
    doors_of(last, rows)
        .map(|(_, (last, row))| size_of_door(last, row))
        .sum()
}

/// Writes what has changed since the rows last reported, each record into the rest of the buffer.
pub fn write_report(
    last: &[ReportRow],
    rows: &[ReportRow],
    buffer: &mut [u8],
) -> Result<usize, Refusal>
    ensures value { result ≡ report_answer last.now rows.now buffer.old }
    ensures after { buffer.new ≡ report_buffer last.now rows.now buffer.old }
{
    if report_size(last, rows) > buffer.len() {
        return Err(Refusal::of(Layer::Panel, Cause::ReportTooLong, 0));
    }
    let mut at = 0;
    for (door, (last, row)) in doors_of(last, rows) {
        at += write_door(&mut buffer[at..], door, last, row);
    }
    Ok(at)
}
