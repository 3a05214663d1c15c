use crate::fixture::{Bench, READINGS, UNLOCK};
use board::status::{DoorStatus, LockStatus};
use std::process::Abort;
use std::test::*;

const SECURED: u8 = 0;

const UNSECURED: u8 = 1;

const UNKNOWN: u8 = 2;

// What a contact and a reading make of Secured_Status, on a door with no alarm or fault values.
fn secured(
    rt: &impl Abort,
    contact: DoorStatus,
    reading: LockStatus,
    wanted: u8,
) -> Result<(), Fail> {
    let mut bench = Bench::new(reading);
    bench.set(7, 0)?;
    bench.set(39, 0)?;
    bench.ticks(1, contact)?;
    assert_eq!(rt; bench.row().secured_status().number(), wanted);
    Ok(())
}

#[test]
fn secured_needs_no_monitor(rt: HostRuntime) -> Result<(), Fail> {
    secured(&rt, DoorStatus::Closed, LockStatus::Locked, SECURED)?;
    secured(&rt, DoorStatus::Closed, LockStatus::Unknown, SECURED)?;
    secured(&rt, DoorStatus::Closed, LockStatus::Unlocked, UNSECURED)?;
    secured(&rt, DoorStatus::Closed, LockStatus::Fault, UNSECURED)?;
    secured(&rt, DoorStatus::Opened, LockStatus::Locked, UNSECURED)?;
    secured(&rt, DoorStatus::Unknown, LockStatus::Locked, UNKNOWN)?;
    secured(&rt, DoorStatus::Unknown, LockStatus::Unknown, UNKNOWN)?;
    secured(&rt, DoorStatus::Unknown, LockStatus::Unlocked, UNSECURED)?;
    secured(&rt, DoorStatus::Unknown, LockStatus::Fault, UNSECURED)
}

// The door is shut again, but its OFFNORMAL still waits for the delay.
#[test]
fn an_alarm_alone_unsecures(rt: HostRuntime) -> Result<(), Fail> {
    for reading in READINGS {
        let mut bench = Bench::new(reading);
        bench.ticks(1, DoorStatus::Opened)?;
        bench.set(113, 1)?;
        bench.ticks(10, DoorStatus::Closed)?;
        assert_eq!(rt; bench.row().sensed.alarm_state.number(), 0);
        assert_eq!(rt; bench.row().secured_status().number(), UNSECURED);
        bench.ticks(1, DoorStatus::Closed)?;
        assert_eq!(rt; bench.row().secured_status().number(), SECURED);
    }
    Ok(())
}

#[test]
fn a_mask_or_a_command_unsecures(rt: HostRuntime) -> Result<(), Fail> {
    for reading in READINGS {
        let mut bench = Bench::new(reading);
        bench.ticks(1, DoorStatus::Closed)?;
        bench.set(234, 128)?;
        assert_eq!(rt; bench.row().secured_status().number(), UNSECURED);
        bench.set(234, 0)?;
        assert_eq!(rt; bench.row().secured_status().number(), SECURED);
        bench.command(8, UNLOCK)?;
        assert_eq!(rt; bench.row().secured_status().number(), UNSECURED);
    }
    Ok(())
}

#[test]
fn the_report_has_eight_numbers(rt: HostRuntime) -> Result<(), Fail> {
    let mut bench = Bench::new(LockStatus::Unknown);
    let made = bench.row().report_row();
    assert_eq!(rt;
        (made.present_value, made.status_flags, made.door_alarm_state),
        (0, 0, 0)
    );
    assert_eq!(rt;
        (made.door_status, made.lock_status, made.secured_status),
        (2, 3, 2)
    );
    assert_eq!(rt; (made.output, made.released_tenths), (0, 0));
    bench.command(8, UNLOCK)?;
    let row = bench.row().report_row();
    assert_eq!(rt;
        (row.present_value, row.status_flags, row.door_alarm_state),
        (1, 0, 0)
    );
    assert_eq!(rt;
        (row.door_status, row.lock_status, row.secured_status),
        (2, 3, 1)
    );
    assert_eq!(rt; (row.output, row.released_tenths), (1, 0));
    Ok(())
}

#[test]
fn a_fault_value_is_a_fault_at_once(rt: HostRuntime) -> Result<(), Fail> {
    for reading in READINGS {
        let mut bench = Bench::new(reading);
        bench.ticks(1, DoorStatus::Opened)?;
        assert_eq!(rt; bench.row().status_flags().number(), 1);
        bench.set(39, 8)?;
        assert_eq!(rt; bench.row().status_flags().number(), 3);
        assert_eq!(rt; bench.row().reliability().number(), 9);
        bench.set(39, 0)?;
        assert_eq!(rt; bench.row().status_flags().number(), 1);
    }
    Ok(())
}
