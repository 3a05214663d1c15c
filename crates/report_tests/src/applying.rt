use crate::fixture::{EDGES, LEAST, MADE, MOST, NO_FIELD, failed, is_refused};
use door::shown::ReportRow;
use mirror::apply::apply;
use mirror::record::Record;
use report::fields::Fields;
use std::process::Abort;
use std::test::Fail;

fn accepts(mirror: &mut [ReportRow], record: &Record) -> Result<(), Fail> {
    apply(mirror, record).map_err(failed)
}

// A mirror of these three rows refuses the record as a bad one, and each row stays.
fn is_bad(rt: &impl Abort, rows: &[ReportRow; 3], record: &Record) -> Result<(), Fail> {
    let mut mirror = *rows;
    is_refused(rt, apply(&mut mirror, record), (7, 3, record.offset))?;
    assert!(rt; mirror == *rows);
    Ok(())
}

fn record(offset: usize, door: usize, fields: Fields) -> Record {
    Record {
        offset,
        door,
        fields,
    }
}

#[test]
fn a_field_changes_alone(rt: HostRuntime) -> Result<(), Fail> {
    for edge in EDGES.iter() {
        let mut mirror = [MADE, LEAST, MOST];
        accepts(&mut mirror, &record(40, 1, edge.fields))?;
        assert!(&rt; mirror == [MADE, edge.row, MOST]);
    }
    Ok(())
}

#[test]
fn fields_change_together(rt: HostRuntime) -> Result<(), Fail> {
    let mut mirror = [MOST, MADE];
    let fields = Fields {
        present_value: Some(1),
        secured_status: Some(1),
        output: Some(1),
        ..NO_FIELD
    };
    let unlocked = ReportRow {
        present_value: 1,
        secured_status: 1,
        output: 1,
        ..MADE
    };
    accepts(&mut mirror, &record(0, 1, fields))?;
    assert!(&rt; mirror == [MOST, unlocked]);
    Ok(())
}

#[test]
fn a_field_past_its_limit_changes_nothing(rt: HostRuntime) -> Result<(), Fail> {
    let rows = [MADE, LEAST, MOST];
    for edge in EDGES.iter() {
        // The door's number is the input.
        for door in 0..3 {
            is_bad(&rt, &rows, &record(7, door, edge.past_fields))?;
        }
    }
    let one_of_two = Fields {
        present_value: Some(1),
        released_tenths: Some(u32::MAX),
        ..NO_FIELD
    };
    is_bad(&rt, &rows, &record(usize::MAX, 1, one_of_two))
}

#[test]
fn a_door_past_the_mirror_changes_nothing(rt: HostRuntime) -> Result<(), Fail> {
    let rows = [MADE, LEAST, MOST];
    for door in [3usize, 4, 64, usize::MAX] {
        for edge in EDGES.iter() {
            is_bad(&rt, &rows, &record(11, door, edge.fields))?;
        }
        is_bad(&rt, &rows, &record(0, door, NO_FIELD))?;
    }
    Ok(())
}

#[test]
fn a_record_without_a_field_changes_nothing(rt: HostRuntime) -> Result<(), Fail> {
    let rows = [MADE, LEAST, MOST];
    // The door's number is the input.
    for door in 0..3 {
        let mut mirror = rows;
        accepts(&mut mirror, &record(2, door, NO_FIELD))?;
        assert!(&rt; mirror == rows);
    }
    Ok(())
}

fn is_bad_for_none(rt: &impl Abort, record: &Record) -> Result<(), Fail> {
    is_refused(rt, apply(&mut [], record), (7, 3, record.offset))
}

#[test]
fn an_empty_mirror_refuses_all(rt: HostRuntime) -> Result<(), Fail> {
    is_bad_for_none(&rt, &record(0, 0, NO_FIELD))?;
    for edge in EDGES.iter() {
        is_bad_for_none(&rt, &record(9, 0, edge.fields))?;
        is_bad_for_none(&rt, &record(13, 1, edge.fields))?;
    }
    Ok(())
}
