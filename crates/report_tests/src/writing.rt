use crate::fixture::{EDGES, FILL, LEAST, MADE, MOST, failed, is_refused};
use door::shown::ReportRow;
use report::write::write_report;
use std::process::Abort;
use std::test::Fail;

fn writes(
    rt: &impl Abort,
    last: &[ReportRow],
    rows: &[ReportRow],
    buffer: &mut [u8],
    wanted: usize,
) -> Result<(), Fail> {
    let count = write_report(last, rows, buffer).map_err(failed)?;
    assert_eq!(rt; count, wanted);
    Ok(())
}

// The buffer is too short, and each byte of it stays.
fn is_too_long(
    rt: &impl Abort,
    last: &[ReportRow],
    rows: &[ReportRow],
    buffer: &mut [u8],
) -> Result<(), Fail> {
    buffer.fill(FILL);
    is_refused(rt, write_report(last, rows, buffer), (13, 2, 0))?;
    assert!(rt; buffer.iter().all(|byte| *byte == FILL));
    Ok(())
}

fn unlocked() -> ReportRow {
    ReportRow {
        present_value: 1,
        secured_status: 1,
        output: 1,
        ..MADE
    }
}

#[test]
fn a_fresh_door_is_unlocked(rt: HostRuntime) -> Result<(), Fail> {
    let mut long = [FILL; 8];
    writes(&rt, &[MADE], &[unlocked()], &mut long, 5)?;
    assert!(rt; &long[..] == &[0x61, 0, 1, 1, 1, FILL, FILL, FILL][..]);
    let mut exact = [FILL; 5];
    writes(&rt, &[MADE], &[unlocked()], &mut exact, 5)?;
    assert!(rt; &exact[..] == &[0x61, 0, 1, 1, 1][..]);
    Ok(())
}

#[test]
fn a_short_buffer_is_refused(rt: HostRuntime) -> Result<(), Fail> {
    is_too_long(&rt, &[MADE], &[unlocked()], &mut [])?;
    is_too_long(&rt, &[MADE], &[unlocked()], &mut [0; 1])?;
    is_too_long(&rt, &[MADE], &[unlocked()], &mut [0; 4])?;
    is_too_long(
        &rt,
        &[MADE; 3],
        &[unlocked(), MADE, unlocked()],
        &mut [0; 5],
    )?;
    is_too_long(
        &rt,
        &[MADE; 3],
        &[unlocked(), MADE, unlocked()],
        &mut [0; 9],
    )?;
    is_too_long(&rt, &[LEAST; 64], &[MOST; 64], &mut [0; 831])
}

#[test]
fn no_change_gives_no_byte(rt: HostRuntime) -> Result<(), Fail> {
    let mut buffer = [FILL; 3];
    writes(
        &rt,
        &[unlocked(), MADE],
        &[unlocked(), MADE],
        &mut buffer,
        0,
    )?;
    assert!(rt; &buffer[..] == &[FILL; 3][..]);
    writes(&rt, &[MOST; 64], &[MOST; 64], &mut [], 0)?;
    writes(&rt, &[], &[], &mut [], 0)
}

#[test]
fn each_field_has_its_bit_and_its_bytes(rt: HostRuntime) -> Result<(), Fail> {
    for (field, edge) in EDGES.iter().enumerate() {
        let mut buffer = [FILL; 6];
        writes(&rt, &[LEAST; 2], &[LEAST, edge.row], &mut buffer, edge.size)?;
        assert!(rt; &buffer[..] == &edge.record[..], "{}", field);
    }
    Ok(())
}

#[test]
fn doors_rise_and_unchanged_ones_are_left_out(rt: HostRuntime) -> Result<(), Fail> {
    let last = [MADE, MADE, MADE];
    let lit = ReportRow {
        door_alarm_state: 3,
        ..MADE
    };
    let mut buffer = [FILL; 10];
    writes(&rt, &last, &[unlocked(), MADE, lit], &mut buffer, 8)?;
    assert!(rt; &buffer[..] == &[0x61, 0, 1, 1, 1, 0x04, 2, 3, FILL, FILL][..]);
    let mut buffer = [FILL; 10];
    writes(&rt, &last, &[MADE, lit, unlocked()], &mut buffer, 8)?;
    assert!(rt; &buffer[..] == &[0x04, 1, 3, 0x61, 2, 1, 1, 1, FILL, FILL][..]);
    Ok(())
}

#[test]
fn sixty_four_doors_take_832_bytes(rt: HostRuntime) -> Result<(), Fail> {
    let mut buffer = [FILL; 833];
    writes(&rt, &[LEAST; 64], &[MOST; 64], &mut buffer, 832)?;
    for (door, record) in (0..64u8).zip(buffer.chunks_exact(13)) {
        let wanted = [0xff, door, 3, 15, 8, 2, 3, 2, 1, 0x77, 0x35, 0x94, 0x00];
        assert!(rt; record == &wanted[..], "{}", door);
    }
    assert_eq!(rt; buffer[832], FILL);
    writes(&rt, &[LEAST; 64], &[MOST; 64], &mut [0; 832], 832)
}

#[test]
fn released_tenths_go_high_byte_first(rt: HostRuntime) -> Result<(), Fail> {
    for (before, tenths, bytes) in [
        (0u32, 0x0102_0304u32, [1u8, 2, 3, 4]),
        (0, 2_000_000_000, [0x77, 0x35, 0x94, 0x00]),
        (0, 255, [0, 0, 0, 255]),
        (255, 256, [0, 0, 1, 0]),
        (256, 65_535, [0, 0, 255, 255]),
        (0, 0x0001_0000, [0, 1, 0, 0]),
        (0x0001_0000, 0x0100_0000, [1, 0, 0, 0]),
        (2_000_000_000, 0, [0, 0, 0, 0]),
    ] {
        let last = ReportRow {
            released_tenths: before,
            ..MADE
        };
        let row = ReportRow {
            released_tenths: tenths,
            ..MADE
        };
        let mut buffer = [FILL; 7];
        writes(&rt, &[last], &[row], &mut buffer, 6)?;
        assert!(rt; &buffer[0..2] == &[0x80, 0][..], "{}", tenths);
        assert!(rt; &buffer[2..6] == &bytes[..], "{}", tenths);
        assert_eq!(rt; buffer[6], FILL);
    }
    Ok(())
}
