use crate::fixture::{EDGES, LEAST, MADE, MOST, ends, failed, next_record};
use door::shown::ReportRow;
use mirror::apply::apply;
use mirror::reader::Reader;
use mirror::reporting::report_to_mirror;
use std::process::Abort;
use std::test::Fail;

// The report from the mirror's rows to these has that many records, and applied one by one they give these rows.
fn goes_round(
    rt: &impl Abort,
    mirror: &mut [ReportRow],
    rows: &[ReportRow],
    records: usize,
) -> Result<(), Fail> {
    let mut buffer = [0; 832];
    let size = report_to_mirror(mirror, rows, &mut buffer).map_err(failed)?;
    assert!(rt; size <= 832);
    let mut reader = Reader::new(&buffer[0..size], 0, mirror.len());
    for _ in 0..records {
        let record = next_record(&mut reader)?;
        apply(mirror, &record).map_err(failed)?;
    }
    ends(&mut reader)?;
    assert!(rt; &mirror[..] == rows);
    Ok(())
}

#[test]
fn one_door(rt: HostRuntime) -> Result<(), Fail> {
    for row in [MADE, LEAST, MOST] {
        goes_round(&rt, &mut [row], &[row], 0)?;
    }
    goes_round(&rt, &mut [LEAST], &[MOST], 1)?;
    goes_round(&rt, &mut [MOST], &[LEAST], 1)?;
    goes_round(&rt, &mut [MADE], &[MOST], 1)?;
    for edge in EDGES.iter() {
        goes_round(&rt, &mut [LEAST], &[edge.row], 1)?;
        goes_round(&rt, &mut [edge.row], &[LEAST], 1)?;
        goes_round(&rt, &mut [MOST], &[edge.row], 1)?;
    }
    Ok(())
}

#[test]
fn three_doors(rt: HostRuntime) -> Result<(), Fail> {
    goes_round(&rt, &mut [MADE; 3], &[MADE; 3], 0)?;
    goes_round(&rt, &mut [MADE, LEAST, MOST], &[MADE, MOST, MOST], 1)?;
    goes_round(&rt, &mut [MADE, LEAST, MOST], &[MOST, LEAST, LEAST], 2)?;
    goes_round(&rt, &mut [MADE, LEAST, MOST], &[LEAST, MOST, MADE], 3)?;
    for edge in EDGES.iter() {
        goes_round(&rt, &mut [LEAST; 3], &[edge.row; 3], 3)?;
        goes_round(&rt, &mut [LEAST; 3], &[LEAST, LEAST, edge.row], 1)?;
        goes_round(
            &rt,
            &mut [LEAST, MOST, MADE],
            &[edge.row, edge.row, MADE],
            2,
        )?;
    }
    Ok(())
}

// The first eight doors and the last eight have one field changed each.
fn ends_go_round(rt: &impl Abort, rows: &mut [ReportRow]) -> Result<(), Fail> {
    for (field, edge) in EDGES.iter().enumerate() {
        assert!(rt; field < 8);
        assert!(rt; rows.len() == 64);
        rows[field] = edge.row;
        rows[63 - field] = edge.row;
    }
    goes_round(rt, &mut [LEAST; 64], rows, 16)?;
    goes_round(rt, rows, &[LEAST; 64], 16)
}

#[test]
fn sixty_four_doors(rt: HostRuntime) -> Result<(), Fail> {
    goes_round(&rt, &mut [MADE; 64], &[MADE; 64], 0)?;
    goes_round(&rt, &mut [LEAST; 64], &[MOST; 64], 64)?;
    for edge in EDGES.iter() {
        goes_round(&rt, &mut [LEAST; 64], &[edge.row; 64], 64)?;
    }
    ends_go_round(&rt, &mut [LEAST; 64])
}
