use crate::fixture::{Bench, EXTENDED, LOCK, PULSE, READINGS, UNLOCK, refused};
use board::refusal::Cause;
use board::status::DoorStatus;
use std::process::Abort;
use std::test::*;

// The number of the value that rules, and of the output.
fn rules(rt: &impl Abort, bench: &Bench, value: u8, output: u8) -> Result<(), Fail> {
    let row = bench.row();
    assert_eq!(rt; row.commanded.present_value.number(), value);
    assert_eq!(rt; row.commanded.output.number(), output);
    Ok(())
}

// Whether something stands at a priority.
fn stands(rt: &impl Abort, bench: &Bench, priority: usize, wanted: bool) -> Result<(), Fail> {
    let slots = bench.row().commanded.slots.at;
    let found = slots.iter().enumerate().any(|(i, slot)| i.saturating_add(1) == priority
        && slot.is_some());
    assert_eq!(rt; found, wanted, "{}", priority);
    Ok(())
}

#[test]
fn the_lowest_number_rules(rt: HostRuntime) -> Result<(), Fail> {
    for reading in READINGS {
        let mut bench = Bench::new(reading);
        bench.command(10, UNLOCK)?;
        rules(&rt, &bench, 1, 1)?;
        bench.command(8, LOCK)?;
        rules(&rt, &bench, 0, 0)?;
        bench.command(16, UNLOCK)?;
        rules(&rt, &bench, 0, 0)?;
        bench.command(8, None)?;
        rules(&rt, &bench, 1, 1)?;
        bench.command(10, None)?;
        bench.command(16, None)?;
        rules(&rt, &bench, 0, 0)?;
        bench.set(104, 1)?;
        rules(&rt, &bench, 1, 1)?;
    }
    Ok(())
}

#[test]
fn bad_numbers_are_refused(rt: HostRuntime) -> Result<(), Fail> {
    for reading in READINGS {
        let bench = Bench::new(reading);
        for priority in [0u64, 6, 17, u64::MAX] {
            refused(
                &rt,
                &[priority, 0],
                bench.door()?.command(priority, LOCK),
                Cause::NoSuchPriority,
            )?;
            refused(
                &rt,
                &[priority, 9],
                bench.door()?.command(priority, Some(9)),
                Cause::NoSuchPriority,
            )?;
        }
        refused(
            &rt,
            &[1, 4],
            bench.door()?.command(1, Some(4)),
            Cause::ValueOutOfRange,
        )?;
        refused(
            &rt,
            &[16, u64::MAX],
            bench.door()?.command(16, Some(u64::MAX)),
            Cause::ValueOutOfRange,
        )?;
    }
    Ok(())
}

#[test]
fn a_pulse_stands_for_its_time(rt: HostRuntime) -> Result<(), Fail> {
    for reading in READINGS {
        let mut bench = Bench::new(reading);
        bench.command(10, PULSE)?;
        rules(&rt, &bench, 2, 1)?;
        bench.set(230, 5)?;
        bench.ticks(59, DoorStatus::Closed)?;
        rules(&rt, &bench, 2, 1)?;
        bench.ticks(1, DoorStatus::Closed)?;
        rules(&rt, &bench, 0, 0)?;
        assert_eq!(rt; bench.row().released_tenths, 60);
        bench.command(10, EXTENDED)?;
        bench.ticks(299, DoorStatus::Closed)?;
        rules(&rt, &bench, 3, 1)?;
        bench.ticks(1, DoorStatus::Closed)?;
        rules(&rt, &bench, 0, 0)?;
    }
    Ok(())
}

#[test]
fn a_pulse_under_a_filled_slot_is_null(rt: HostRuntime) -> Result<(), Fail> {
    for reading in READINGS {
        let mut bench = Bench::new(reading);
        bench.command(10, UNLOCK)?;
        bench.command(8, LOCK)?;
        bench.command(10, PULSE)?;
        stands(&rt, &bench, 10, false)?;
        bench.command(8, None)?;
        rules(&rt, &bench, 0, 0)?;
        bench.set(230, 0)?;
        bench.command(9, UNLOCK)?;
        bench.command(9, PULSE)?;
        stands(&rt, &bench, 9, false)?;
    }
    Ok(())
}

#[test]
fn a_better_command_leaves_the_pulses_under_it(rt: HostRuntime) -> Result<(), Fail> {
    for reading in READINGS {
        let mut bench = Bench::new(reading);
        bench.command(10, PULSE)?;
        bench.ticks(10, DoorStatus::Closed)?;
        bench.command(8, LOCK)?;
        stands(&rt, &bench, 10, true)?;
        bench.ticks(49, DoorStatus::Closed)?;
        stands(&rt, &bench, 10, true)?;
        bench.ticks(1, DoorStatus::Closed)?;
        stands(&rt, &bench, 10, false)?;
        stands(&rt, &bench, 8, true)?;
        rules(&rt, &bench, 0, 0)?;
    }
    Ok(())
}

#[test]
fn a_pulse_rules_again_and_waits_anew(rt: HostRuntime) -> Result<(), Fail> {
    for reading in READINGS {
        let mut bench = Bench::new(reading);
        bench.set(232, 4)?;
        bench.command(10, PULSE)?;
        bench.ticks(4, DoorStatus::Closed)?;
        rules(&rt, &bench, 2, 1)?;
        bench.command(8, LOCK)?;
        rules(&rt, &bench, 0, 0)?;
        bench.ticks(5, DoorStatus::Closed)?;
        bench.command(8, None)?;
        rules(&rt, &bench, 2, 0)?;
        bench.set(232, 100)?;
        bench.ticks(3, DoorStatus::Closed)?;
        rules(&rt, &bench, 2, 0)?;
        bench.ticks(1, DoorStatus::Closed)?;
        rules(&rt, &bench, 2, 1)?;
        bench.ticks(46, DoorStatus::Closed)?;
        rules(&rt, &bench, 2, 1)?;
        bench.ticks(1, DoorStatus::Closed)?;
        rules(&rt, &bench, 0, 0)?;
    }
    Ok(())
}

#[test]
fn an_unlock_delay_holds_a_pulse_back(rt: HostRuntime) -> Result<(), Fail> {
    for reading in READINGS {
        let mut bench = Bench::new(reading);
        bench.set(232, 10)?;
        bench.set(230, 12)?;
        bench.command(10, PULSE)?;
        rules(&rt, &bench, 2, 0)?;
        bench.ticks(9, DoorStatus::Closed)?;
        rules(&rt, &bench, 2, 0)?;
        bench.ticks(1, DoorStatus::Closed)?;
        rules(&rt, &bench, 2, 1)?;
        bench.ticks(1, DoorStatus::Closed)?;
        rules(&rt, &bench, 2, 1)?;
        bench.ticks(1, DoorStatus::Closed)?;
        rules(&rt, &bench, 0, 0)?;
        assert_eq!(rt; bench.row().released_tenths, 2);
        bench.set(230, 5)?;
        bench.command(10, PULSE)?;
        bench.ticks(20, DoorStatus::Closed)?;
        assert_eq!(rt; bench.row().released_tenths, 2);
    }
    Ok(())
}

#[test]
fn a_delay_goes_on_from_pulse_to_pulse(rt: HostRuntime) -> Result<(), Fail> {
    for reading in READINGS {
        let mut bench = Bench::new(reading);
        bench.set(232, 10)?;
        bench.command(10, PULSE)?;
        bench.ticks(6, DoorStatus::Closed)?;
        bench.command(9, EXTENDED)?;
        rules(&rt, &bench, 3, 0)?;
        bench.ticks(4, DoorStatus::Closed)?;
        rules(&rt, &bench, 3, 1)?;
        let mut other = Bench::new(reading);
        other.set(232, 3)?;
        other.command(5, UNLOCK)?;
        other.command(2, PULSE)?;
        rules(&rt, &other, 2, 1)?;
    }
    Ok(())
}
