ghost use Rattle.std.specs.Prelude.{◌≡◌, ◌≤◌, cond, Some, None};
ghost use Rattle.report.specs.Fields.{fields_between, bit_of, map_of, width, record_size};

use crate::value::FieldValue;
use door::shown::ReportRow;

/// Of each of the eight fields of a row, a value or none. Numbers, as in a row: who applies them has to be able to refuse one.
#[derive(Clone, Copy, PartialEq, Eq)]
pub struct Fields {
    pub present_value: Option<u8>,
    pub status_flags: Option<u8>,
    pub door_alarm_state: Option<u8>,
    pub door_status: Option<u8>,
    pub lock_status: Option<u8>,
    pub secured_status: Option<u8>,
    pub output: Option<u8>,
    pub released_tenths: Option<u32>,
}

fn if_new<V: PartialEq + Copy>(last: V, value: V) -> Option<V>
    ensures { result ≡ cond (V.eq last value) None (Some value) }
{
    if last == value { None } else { Some(value) }
}

fn bit_of<V: Copy>(value: Option<V>, bit: u8) -> u8
    ensures value { result ≡ bit_of value bit }
    ensures most { result ≤ bit }
{
    if value.is_some() { bit } else { 0 }
}

fn width_of<const N: usize, V: FieldValue<N>>(value: Option<V>) -> usize
    ensures value { result ≡ width N value }
    ensures most { result ≤ N }
{
    if value.is_some() { N } else { 0 }
}

impl Fields {
    /// The fields of a row that differ from the row last reported.
    pub fn between(last: &ReportRow, row: &ReportRow) -> Fields
        ensures { result ≡ fields_between last.now row.now }
    {
        Fields {
            present_value: if_new(last.present_value, row.present_value),
            status_flags: if_new(last.status_flags, row.status_flags),
            door_alarm_state: if_new(last.door_alarm_state, row.door_alarm_state),
            door_status: if_new(last.door_status, row.door_status),
            lock_status: if_new(last.lock_status, row.lock_status),
            secured_status: if_new(last.secured_status, row.secured_status),
            output: if_new(last.output, row.output),
            released_tenths: if_new(last.released_tenths, row.released_tenths),
        }
    }

    /// The bit map: bit k stands where field k is there.
    pub fn map(&self) -> u8
        ensures { result ≡ map_of self.now }
    {
        bit_of(self.present_value, 1)
            + bit_of(self.status_flags, 2)
            + bit_of(self.door_alarm_state, 4)
            + bit_of(self.door_status, 8)
            + bit_of(self.lock_status, 16)
            + bit_of(self.secured_status, 32)
            + bit_of(self.output, 64)
            + bit_of(self.released_tenths, 128)
    }

    /// How many bytes a record with these fields takes.
    pub fn record_size(&self) -> usize
        ensures value { result ≡ record_size self.now }
        ensures most { result ≤ 13 }
    {
        2 + width_of(self.present_value)
            + width_of(self.status_flags)
            + width_of(self.door_alarm_state)
            + width_of(self.door_status)
            + width_of(self.lock_status)
            + width_of(self.secured_status)
            + width_of(self.output)
            + width_of(self.released_tenths)
    }
}
