use board::refusal::Refusal;
use door::shown::ReportRow;
use mirror::reader::Reader;
use mirror::record::Record;
use report::fields::Fields;
use std::process::Abort;
use std::test::Fail;

// The row of a door at making.
pub const MADE: ReportRow = ReportRow {
    present_value: 0,
    status_flags: 0,
    door_alarm_state: 0,
    door_status: 2,
    lock_status: 3,
    secured_status: 2,
    output: 0,
    released_tenths: 0,
};

// Each field at 0.
pub const LEAST: ReportRow = ReportRow {
    present_value: 0,
    status_flags: 0,
    door_alarm_state: 0,
    door_status: 0,
    lock_status: 0,
    secured_status: 0,
    output: 0,
    released_tenths: 0,
};

// Each field at its limit.
pub const MOST: ReportRow = ReportRow {
    present_value: 3,
    status_flags: 15,
    door_alarm_state: 8,
    door_status: 2,
    lock_status: 3,
    secured_status: 2,
    output: 1,
    released_tenths: 2_000_000_000,
};

pub const NO_FIELD: Fields = Fields {
    present_value: None,
    status_flags: None,
    door_alarm_state: None,
    door_status: None,
    lock_status: None,
    secured_status: None,
    output: None,
    released_tenths: None,
};

pub const FILL: u8 = 0xee;

// A field alone: its record for door 1 at its limit and one past it, with FILL behind it; the same as fields; and a row
// of zeros but for it.
#[derive(Clone, Copy)]
pub struct Edge {
    pub size: usize,
    pub record: [u8; 6],
    pub past: [u8; 6],
    pub fields: Fields,
    pub past_fields: Fields,
    pub row: ReportRow,
}

pub const EDGES: [Edge; 8] = [
    Edge {
        size: 3,
        record: [1, 1, 3, FILL, FILL, FILL],
        past: [1, 1, 4, FILL, FILL, FILL],
        fields: Fields {
            present_value: Some(3),
            ..NO_FIELD
        },
        past_fields: Fields {
            present_value: Some(4),
            ..NO_FIELD
        },
        row: ReportRow {
            present_value: 3,
            ..LEAST
        },
    },
    Edge {
        size: 3,
        record: [2, 1, 15, FILL, FILL, FILL],
        past: [2, 1, 16, FILL, FILL, FILL],
        fields: Fields {
            status_flags: Some(15),
            ..NO_FIELD
        },
        past_fields: Fields {
            status_flags: Some(16),
            ..NO_FIELD
        },
        row: ReportRow {
            status_flags: 15,
            ..LEAST
        },
    },
    Edge {
        size: 3,
        record: [4, 1, 8, FILL, FILL, FILL],
        past: [4, 1, 9, FILL, FILL, FILL],
        fields: Fields {
            door_alarm_state: Some(8),
            ..NO_FIELD
        },
        past_fields: Fields {
            door_alarm_state: Some(9),
            ..NO_FIELD
        },
        row: ReportRow {
            door_alarm_state: 8,
            ..LEAST
        },
    },
    Edge {
        size: 3,
        record: [8, 1, 2, FILL, FILL, FILL],
        past: [8, 1, 3, FILL, FILL, FILL],
        fields: Fields {
            door_status: Some(2),
            ..NO_FIELD
        },
        past_fields: Fields {
            door_status: Some(3),
            ..NO_FIELD
        },
        row: ReportRow {
            door_status: 2,
            ..LEAST
        },
    },
    Edge {
        size: 3,
        record: [16, 1, 3, FILL, FILL, FILL],
        past: [16, 1, 4, FILL, FILL, FILL],
        fields: Fields {
            lock_status: Some(3),
            ..NO_FIELD
        },
        past_fields: Fields {
            lock_status: Some(4),
            ..NO_FIELD
        },
        row: ReportRow {
            lock_status: 3,
            ..LEAST
        },
    },
    Edge {
        size: 3,
        record: [32, 1, 2, FILL, FILL, FILL],
        past: [32, 1, 3, FILL, FILL, FILL],
        fields: Fields {
            secured_status: Some(2),
            ..NO_FIELD
        },
        past_fields: Fields {
            secured_status: Some(3),
            ..NO_FIELD
        },
        row: ReportRow {
            secured_status: 2,
            ..LEAST
        },
    },
    Edge {
        size: 3,
        record: [64, 1, 1, FILL, FILL, FILL],
        past: [64, 1, 2, FILL, FILL, FILL],
        fields: Fields {
            output: Some(1),
            ..NO_FIELD
        },
        past_fields: Fields {
            output: Some(2),
            ..NO_FIELD
        },
        row: ReportRow { output: 1, ..LEAST },
    },
    Edge {
        size: 6,
        record: [128, 1, 0x77, 0x35, 0x94, 0x00],
        past: [128, 1, 0x77, 0x35, 0x94, 0x01],
        fields: Fields {
            released_tenths: Some(2_000_000_000),
            ..NO_FIELD
        },
        past_fields: Fields {
            released_tenths: Some(2_000_000_001),
            ..NO_FIELD
        },
        row: ReportRow {
            released_tenths: 2_000_000_000,
            ..LEAST
        },
    },
];

// A refusal that no test wants.
pub(crate) fn failed(refusal: Refusal) -> Fail {
    Fail::new(refusal.cause.number())
}

// A call is refused, with these numbers of the cause and of the layer, and that place.
pub(crate) fn is_refused<T: Drop>(
    rt: &impl Abort,
    outcome: Result<T, Refusal>,
    wanted: (u8, u8, usize),
) -> Result<(), Fail> {
    let refusal = outcome.err().ok_or_else(|| Fail::new("no refusal"))?;
    assert_eq!(rt;
        (
            refusal.cause.number(),
            refusal.layer.number(),
            refusal.place,
        ),
        wanted
    );
    Ok(())
}

// Reading refuses with that cause, and again with the same.
pub(crate) fn refuses(
    rt: &impl Abort,
    reader: &mut Reader<'_>,
    cause: u8,
    offset: usize,
) -> Result<(), Fail> {
    for _ in 0..2 {
        is_refused(rt, reader.next(), (cause, 3, offset))?;
    }
    Ok(())
}

// Reading answers the end, and again the end.
pub(crate) fn ends(reader: &mut Reader<'_>) -> Result<(), Fail> {
    for _ in 0..2 {
        if reader.next().map_err(failed)?.is_some() {
            return Err(Fail::new("a record in place of the end"));
        }
    }
    Ok(())
}

pub(crate) fn next_record(reader: &mut Reader<'_>) -> Result<Record, Fail> {
    reader
        .next()
        .map_err(failed)?
        .ok_or_else(|| Fail::new("the end in place of a record"))
}

// The next record is this one.
pub(crate) fn reads(
    rt: &impl Abort,
    reader: &mut Reader<'_>,
    offset: usize,
    door: usize,
    fields: &Fields,
) -> Result<(), Fail> {
    let record = next_record(reader)?;
    assert_eq!(rt; (record.offset, record.door), (offset, door));
    assert!(rt; record.fields == *fields);
    Ok(())
}
