use crate::fixture::{Bench, LOCK, PULSE, READINGS, UNLOCK, refused};
use board::refusal::Cause;
use board::status::{DoorStatus, LockStatus};
use std::process::Abort;
use std::test::*;

const NORMAL: u8 = 0;

const TOO_LONG: u8 = 2;

const FORCED: u8 = 3;

const DOOR_FAULT: u8 = 5;

fn alarm(rt: &impl Abort, bench: &Bench, wanted: u8) -> Result<(), Fail> {
    assert_eq!(rt; bench.row().sensed.alarm_state.number(), wanted);
    Ok(())
}

#[test]
fn opening_under_lock_is_forced(rt: HostRuntime) -> Result<(), Fail> {
    for reading in READINGS {
        let mut bench = Bench::new(reading);
        bench.ticks(2, DoorStatus::Closed)?;
        alarm(&rt, &bench, NORMAL)?;
        bench.ticks(1, DoorStatus::Opened)?;
        alarm(&rt, &bench, FORCED)?;
        bench.ticks(400, DoorStatus::Opened)?;
        alarm(&rt, &bench, FORCED)?;
        bench.ticks(1, DoorStatus::Unknown)?;
        alarm(&rt, &bench, NORMAL)?;
        bench.ticks(1, DoorStatus::Opened)?;
        alarm(&rt, &bench, FORCED)?;
        bench.command(10, UNLOCK)?;
        alarm(&rt, &bench, NORMAL)?;
        bench.command(10, None)?;
        alarm(&rt, &bench, NORMAL)?;
    }
    Ok(())
}

#[test]
fn opening_as_a_pulse_ends_is_not_forced(rt: HostRuntime) -> Result<(), Fail> {
    for reading in READINGS {
        let mut bench = Bench::new(reading);
        bench.ticks(1, DoorStatus::Closed)?;
        bench.command(10, PULSE)?;
        bench.ticks(59, DoorStatus::Closed)?;
        bench.ticks(1, DoorStatus::Opened)?;
        assert_eq!(rt; bench.row().commanded.present_value.number(), 0);
        alarm(&rt, &bench, NORMAL)?;
        bench.ticks(300, DoorStatus::Opened)?;
        alarm(&rt, &bench, TOO_LONG)?;
    }
    Ok(())
}

#[test]
fn a_door_left_open_under_lock_is_open_too_long(rt: HostRuntime) -> Result<(), Fail> {
    for reading in READINGS {
        let mut bench = Bench::new(reading);
        bench.command(10, UNLOCK)?;
        bench.ticks(50, DoorStatus::Opened)?;
        bench.command(8, LOCK)?;
        bench.ticks(299, DoorStatus::Opened)?;
        alarm(&rt, &bench, NORMAL)?;
        bench.ticks(1, DoorStatus::Opened)?;
        alarm(&rt, &bench, TOO_LONG)?;
        bench.command(8, None)?;
        alarm(&rt, &bench, NORMAL)?;
        bench.command(8, LOCK)?;
        alarm(&rt, &bench, NORMAL)?;
        bench.set(229, 0)?;
        alarm(&rt, &bench, TOO_LONG)?;
    }
    Ok(())
}

#[test]
fn masks_hide_alarms_and_not_marks(rt: HostRuntime) -> Result<(), Fail> {
    for reading in READINGS {
        let mut bench = Bench::new(reading);
        bench.set(234, 8)?;
        bench.ticks(1, DoorStatus::Opened)?;
        alarm(&rt, &bench, NORMAL)?;
        bench.ticks(400, DoorStatus::Opened)?;
        alarm(&rt, &bench, NORMAL)?;
        bench.set(234, 0)?;
        alarm(&rt, &bench, FORCED)?;
        bench.read(LockStatus::Fault);
        bench.ticks(1, DoorStatus::Opened)?;
        alarm(&rt, &bench, DOOR_FAULT)?;
        bench.set(234, 32)?;
        alarm(&rt, &bench, FORCED)?;
    }
    Ok(())
}

#[test]
fn a_masked_open_too_long_is_normal(rt: HostRuntime) -> Result<(), Fail> {
    for reading in READINGS {
        let mut bench = Bench::new(reading);
        bench.command(10, UNLOCK)?;
        bench.ticks(1, DoorStatus::Opened)?;
        bench.command(10, None)?;
        bench.set(229, 5)?;
        bench.set(234, 4)?;
        bench.ticks(6, DoorStatus::Opened)?;
        alarm(&rt, &bench, NORMAL)?;
        bench.set(234, 0)?;
        alarm(&rt, &bench, TOO_LONG)?;
    }
    Ok(())
}

#[test]
fn sets_have_bits_1_to_8(rt: HostRuntime) -> Result<(), Fail> {
    for reading in READINGS {
        let mut bench = Bench::new(reading);
        for item in [234u64, 7, 39] {
            bench.set(item, 510)?;
            bench.set(item, 0)?;
            for number in [1u64, 511, 512, 65536, u64::MAX] {
                refused(
                    &rt,
                    &[item, number],
                    bench.door()?.set(item, number),
                    Cause::ValueOutOfRange,
                )?;
            }
        }
    }
    Ok(())
}

#[test]
fn settings_have_ranges(rt: HostRuntime) -> Result<(), Fail> {
    for reading in READINGS {
        let mut bench = Bench::new(reading);
        for (item, most) in [
            (230u64, 864_000u64),
            (227, 864_000),
            (232, 864_000),
            (229, 864_000),
            (113, 86_400),
            (104, 1),
            (35, 7),
        ] {
            bench.set(item, 0)?;
            bench.set(item, most)?;
            refused(
                &rt,
                &[item, most.saturating_add(1)],
                bench.door()?.set(item, most.saturating_add(1)),
                Cause::ValueOutOfRange,
            )?;
        }
        for item in [0u64, 6, 8, 226, 231, 233, 235, u64::MAX] {
            refused(
                &rt,
                &[item, u64::MAX],
                bench.door()?.set(item, u64::MAX),
                Cause::NoSuchItem,
            )?;
        }
    }
    Ok(())
}
