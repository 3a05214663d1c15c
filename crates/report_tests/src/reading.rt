use crate::fixture::{EDGES, NO_FIELD, ends, next_record, reads, refuses};
use mirror::reader::Reader;
use report::fields::Fields;
use std::process::Abort;
use std::test::Fail;

// A whole record of door 2, at offset 3, each field at its limit.
const FULL: [u8; 16] = [
    0xff, 0xff, 0xff, 0xff, 2, 3, 15, 8, 2, 3, 2, 1, 0x77, 0x35, 0x94, 0x00,
];

// Records at 0, 5, 12 and 15; the one at 12 has a field past its limit.
const SEVERAL: [u8; 18] = [
    0x61, 0, 1, 1, 1, 0x84, 2, 8, 0, 0, 1, 0, 0x02, 1, 16, 0x01, 0, 1,
];

#[test]
fn each_field_has_its_limit(rt: HostRuntime) -> Result<(), Fail> {
    for edge in EDGES.iter() {
        assert!(rt; edge.size <= 6);
        let good = &edge.record[0..edge.size];
        let bad = &edge.past[0..edge.size];
        let mut reader = Reader::new(good, 0, 2);
        reads(&rt, &mut reader, 0, 1, &edge.fields)?;
        ends(&mut reader)?;
        refuses(&rt, &mut Reader::new(bad, 0, 2), 7, 0)?;
    }
    Ok(())
}

#[test]
fn limits_hold_at_any_offset(rt: HostRuntime) -> Result<(), Fail> {
    for edge in EDGES.iter() {
        let [a, b, c, d, e, f] = edge.record;
        let good = [0xff, 0, a, b, c, d, e, f];
        reads(&rt, &mut Reader::new(&good, 2, 2), 2, 1, &edge.fields)?;
        let [a, b, c, d, e, f] = edge.past;
        let bad = [0xff, 0, a, b, c, d, e, f];
        refuses(&rt, &mut Reader::new(&bad, 2, 2), 7, 2)?;
    }
    Ok(())
}

#[test]
fn released_tenths_are_four_bytes(rt: HostRuntime) -> Result<(), Fail> {
    for (bytes, tenths) in [
        ([0x80u8, 0, 0, 0, 0, 0], 0u32),
        ([0x80, 0, 1, 2, 3, 4], 0x0102_0304),
        ([0x80, 0, 0, 0, 0xff, 0xff], 65_535),
        ([0x80, 0, 0x77, 0x35, 0x93, 0xff], 1_999_999_999),
        ([0x80, 0, 0x77, 0x35, 0x94, 0x00], 2_000_000_000),
    ] {
        let fields = Fields {
            released_tenths: Some(tenths),
            ..NO_FIELD
        };
        reads(&rt, &mut Reader::new(&bytes, 0, 1), 0, 0, &fields)?;
    }
    for bytes in [
        [0x80u8, 0, 0x77, 0x35, 0x94, 0x01],
        [0x80, 0, 0x77, 0x35, 0x95, 0x00],
        [0x80, 0, 0x80, 0x00, 0x00, 0x00],
        [0x80, 0, 0xff, 0xff, 0xff, 0xff],
    ]
    .iter()
    {
        refuses(&rt, &mut Reader::new(bytes, 0, 1), 7, 0)?;
    }
    Ok(())
}

// The bytes end at each place in turn.
fn is_cut_anywhere(rt: &impl Abort, bytes: &[u8], place: usize) -> Result<(), Fail> {
    // Where the bytes end is the input.
    for end in 0..bytes.len() {
        let mut reader = Reader::new(&bytes[0..end], place, 3);
        if end <= place {
            ends(&mut reader)?;
        } else {
            refuses(rt, &mut reader, 6, place)?;
        }
    }
    let mut reader = Reader::new(bytes, place, 3);
    let record = next_record(&mut reader)?;
    assert_eq!(rt; (record.offset, record.door), (place, 2));
    ends(&mut reader)
}

#[test]
fn a_cut_record_is_told(rt: HostRuntime) -> Result<(), Fail> {
    let full = FULL;
    is_cut_anywhere(&rt, &full[3..], 0)?;
    is_cut_anywhere(&rt, &full, 3)
}

#[test]
fn cut_goes_before_bad(rt: HostRuntime) -> Result<(), Fail> {
    refuses(&rt, &mut Reader::new(&[0x00], 0, 1), 6, 0)?;
    refuses(&rt, &mut Reader::new(&[0x00], 0, 0), 6, 0)?;
    refuses(&rt, &mut Reader::new(&[0x00, 0], 0, 1), 7, 0)?;
    refuses(&rt, &mut Reader::new(&[0x00, 0, 1, 1], 0, 1), 7, 0)?;
    refuses(&rt, &mut Reader::new(&[0x01, 9], 0, 1), 6, 0)?;
    refuses(&rt, &mut Reader::new(&[0x01, 9, 0], 0, 1), 7, 0)?;
    refuses(&rt, &mut Reader::new(&[0x03, 0, 9], 0, 1), 6, 0)?;
    refuses(&rt, &mut Reader::new(&[0x03, 0, 9, 0], 0, 1), 7, 0)?;
    refuses(&rt, &mut Reader::new(&[0x61, 0x00, 1, 0x00], 3, 1), 6, 3)
}

#[test]
fn a_door_is_below_the_mirror(rt: HostRuntime) -> Result<(), Fail> {
    let fields = Fields {
        output: Some(1),
        ..NO_FIELD
    };
    for (rows, door) in [
        (1usize, 0u8),
        (2, 1),
        (64, 63),
        (255, 254),
        (usize::MAX, 255),
    ] {
        let bytes = [0x40, door, 1];
        reads(
            &rt,
            &mut Reader::new(&bytes, 0, rows),
            0,
            usize::from(door),
            &fields,
        )?;
    }
    for (rows, door) in [(0usize, 0u8), (1, 1), (1, 2), (64, 64), (255, 255)] {
        refuses(&rt, &mut Reader::new(&[0x40, door, 1], 0, rows), 7, 0)?;
    }
    Ok(())
}

fn is_at_end(bytes: &[u8], place: usize) -> Result<(), Fail> {
    ends(&mut Reader::new(bytes, place, 1))
}

#[test]
fn a_place_past_the_end_is_the_end() -> Result<(), Fail> {
    for place in [3usize, 4, 1_000, usize::MAX - 1, usize::MAX] {
        is_at_end(&[0x01, 0, 1], place)?;
        is_at_end(&[], place)?;
    }
    is_at_end(&[], 0)
}

#[test]
fn records_are_read_one_by_one(rt: HostRuntime) -> Result<(), Fail> {
    let mut reader = Reader::new(&SEVERAL, 0, 3);
    let first = Fields {
        present_value: Some(1),
        secured_status: Some(1),
        output: Some(1),
        ..NO_FIELD
    };
    reads(&rt, &mut reader, 0, 0, &first)?;
    let second = Fields {
        door_alarm_state: Some(8),
        released_tenths: Some(256),
        ..NO_FIELD
    };
    reads(&rt, &mut reader, 5, 2, &second)?;
    refuses(&rt, &mut reader, 7, 12)?;
    let third = Fields {
        present_value: Some(1),
        ..NO_FIELD
    };
    let mut behind = Reader::new(&SEVERAL, 15, 3);
    reads(&rt, &mut behind, 15, 0, &third)?;
    ends(&mut behind)
}
