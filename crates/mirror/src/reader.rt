ghost use Rattle.std.specs.Prelude.{◌≡◌, ◌≤◌, length, drop};
ghost use Rattle.std.specs.Option.{unwrap_or};
ghost use Rattle.mirror.specs.Reading.{byte_answer, place_after_byte, field_width, fields_size, field_at, fields_read, next_answer, place_after};

use crate::record::{Record, are_within};
use board::refusal::{Cause, Layer, Refusal};
use report::fields::Fields;
use report::value::FieldValue;

/// Where a reader is in its bytes.
#[derive(Clone, Copy)]
pub struct Place {
    pub at: usize,
}

/// A guard that puts the place back to where a record began, unless `back_to` is none.
// A record is refused in four places: dropped, the guard puts the place back in each of them.
struct Rewind<'a> {
    place: &'a mut Place,
    back_to: Option<usize>,
}

impl Drop for Rewind<'_> {
    fn drop(self)
        ensures { self.exit.0.now.at ≡ unwrap_or self.entry.back_to self.entry.place.now.at }
    {
        if let Some(start) = self.back_to {
            self.place.at = start;
        }
        let Rewind {
            place: _,
            back_to: _,
        } = self;
    }
}

fn read_byte(offset: usize, bytes: &[u8], place: &mut Place) -> Result<u8, Refusal>
    ensures value { result ≡ byte_answer offset bytes.now place.old.at }
    ensures after { place.new ≡ place_after_byte bytes.now place.old }
{
    let byte = bytes
        .get(place.at)
        .ok_or(Refusal::of(Layer::Records, Cause::RecordCut, offset))?;
    place.at += 1;
    Ok(*byte)
}

fn width_of(size: usize, map: u8, bit: u8) -> usize
    ensures value { result ≡ field_width size map bit }
    ensures most { result ≤ size }
{
    if map & bit == 0 { 0 } else { size }
}

/// How many bytes the fields of a bit map take.
#[tactic(auto, unfolding(crate::specs::Reading::fields_size))]
fn size_of(map: u8) -> usize
    ensures value { result ≡ fields_size map }
    ensures most { result ≤ 11 }
{
    width_of(1, map, 1)
        + width_of(1, map, 2)
        + width_of(1, map, 4)
        + width_of(1, map, 8)
        + width_of(1, map, 16)
        + width_of(1, map, 32)
        + width_of(1, map, 64)
        + width_of(4, map, 128)
}

/// The fields of a record that are still to be read: its bit map, and the bytes from the next field on.
#[derive(Clone, Copy)]
struct FieldReader<'a> {
    map: u8,
    rest: &'a [u8],
}

impl FieldReader<'_> {
    /// The next field, where its bit stands in the map.
    fn field<const N: usize, V: FieldValue<N>>(&mut self, bit: u8) -> Option<V>
        requires { field_width N self.old.map bit ≤ length self.old.rest.now }
        ensures value { result ≡ field_at N V.value_of self.old.map bit self.old.rest.now }
        ensures map { self.new.map ≡ self.old.map }
        ensures rest { self.new.rest.now ≡ drop (field_width N self.old.map bit) self.old.rest.now }
    {
        if self.map & bit == 0 {
            return None;
        }
        let (bytes, rest) = self.rest.split_first_chunk()?;
        self.rest = rest;
        Some(V::from_bytes(bytes))
    }

    /// All fields of the map, in order.
    #[tactic(auto, unfolding(crate::specs::Reading::fields_read, crate::specs::Reading::fields_size))]
    fn fields(mut self) -> Fields
        requires { fields_size self.map ≤ length self.rest.now }
        ensures { result ≡ fields_read self.entry.map self.entry.rest.now }
    {
        Fields {
            present_value: self.field(1),
            status_flags: self.field(2),
            door_alarm_state: self.field(4),
            door_status: self.field(8),
            lock_status: self.field(16),
            secured_status: self.field(32),
            output: self.field(64),
            released_tenths: self.field(128),
        }
    }
}

/// Reads a report's bytes, which stay the caller's, from a place on.
#[derive(Drop)]
pub struct Reader<'a> {
    bytes: &'a [u8],
    place: Place,
    rows: usize,
}

impl<'a> Reader<'a> {
    /// A reader of these bytes, from a place, for a mirror of that many rows.
    pub fn new(bytes: &'a [u8], place: usize, rows: usize) -> Reader<'a>
        ensures bytes { result.bytes.now ≡ bytes.now }
        ensures place { result.place.at ≡ place }
        ensures rows { result.rows ≡ rows }
    {
        Reader {
            bytes,
            place: Place { at: place },
            rows,
        }
    }

    /// Where the next record is looked for.
    pub fn place(&self) -> usize
        ensures { result ≡ self.now.place.at }
    {
        let place = self.place;
        place.at
    }

    /// The next record, or `None` where no byte is left. A refused record leaves the place where it began.
    // No Iterator: a refused record comes again and again, so that it would not end.
    pub fn next(&mut self) -> Result<Option<Record>, Refusal>
        ensures value { result ≡ next_answer self.old.bytes.now self.old.place.at self.old.rows }
        ensures bytes { self.new.bytes.now ≡ self.old.bytes.now }
        ensures rows { self.new.rows ≡ self.old.rows }
        ensures after { self.new.place.at ≡ place_after result self.old.bytes.now self.old.place.at }
    {
        let bytes = self.bytes;
        let rows = self.rows;
        let start = self.place.at;
        if start >= bytes.len() {
            return Ok(None);
        }
        let mut mark = Rewind {
            place: &mut self.place,
            back_to: Some(start),
        };
        let map = read_byte(start, bytes, mark.place)?;
        let door = read_byte(start, bytes, mark.place)?;
        let rest = &bytes[mark.place.at..];
        let size = size_of(map);
        if rest.len() < size {
            return Err(Refusal::of(Layer::Records, Cause::RecordCut, start));
        }
        let fields = FieldReader { map, rest }.fields();
        mark.place.at += size;
        if map == 0 || usize::from(door) >= rows || !are_within(&fields) {
            return Err(Refusal::of(Layer::Records, Cause::BadRecord, start));
        }
        mark.back_to = None;
        Ok(Some(Record {
            offset: start,
            door: usize::from(door),
            fields,
        }))
    }
}
