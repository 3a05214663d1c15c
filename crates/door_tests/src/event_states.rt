use crate::fixture::{Bench, LOCK, READINGS, UNLOCK, refused};
use board::refusal::Cause;
use board::status::{DoorStatus, LockStatus};
use std::process::Abort;
use std::test::*;

const NORMAL: u8 = 0;

const FAULT: u8 = 1;

const OFFNORMAL: u8 = 2;

fn event(rt: &impl Abort, bench: &Bench, wanted: u8) -> Result<(), Fail> {
    assert_eq!(rt; bench.row().events.event_state.number(), wanted);
    Ok(())
}

#[test]
fn an_alarm_leads_to_offnormal_and_back(rt: HostRuntime) -> Result<(), Fail> {
    for reading in READINGS {
        let mut bench = Bench::new(reading);
        assert_eq!(rt; bench.tick(DoorStatus::Closed)?, None);
        assert_eq!(rt; bench.tick(DoorStatus::Opened)?, Some(0));
        event(&rt, &bench, OFFNORMAL)?;
        assert_eq!(rt; bench.row().events.acked.number(), 6);
        assert_eq!(rt; bench.row().events.stamps.to_offnormal, 2);
        assert_eq!(rt; bench.tick(DoorStatus::Opened)?, None);
        assert_eq!(rt; bench.tick(DoorStatus::Closed)?, Some(2));
        event(&rt, &bench, NORMAL)?;
        assert_eq!(rt; bench.row().events.acked.number(), 2);
        assert_eq!(rt; bench.row().events.stamps.to_normal, 4);
        bench.acknowledge(0)?;
        assert_eq!(rt; bench.row().events.acked.number(), 3);
        bench.acknowledge(0)?;
        bench.acknowledge(2)?;
        assert_eq!(rt; bench.row().events.acked.number(), 7);
        refused(
            &rt,
            &[3],
            bench.door()?.acknowledge(3),
            Cause::ValueOutOfRange,
        )?;
    }
    Ok(())
}

#[test]
fn a_delay_counts_seconds(rt: HostRuntime) -> Result<(), Fail> {
    for reading in READINGS {
        let mut bench = Bench::new(reading);
        bench.set(113, 2)?;
        assert_eq!(rt; bench.tick(DoorStatus::Opened)?, None);
        for _ in 0..19 {
            assert_eq!(rt; bench.tick(DoorStatus::Opened)?, None);
        }
        assert_eq!(rt; bench.tick(DoorStatus::Opened)?, Some(0));
        assert_eq!(rt; bench.row().sensed.held_count, 20);
    }
    Ok(())
}

#[test]
fn a_fault_does_not_wait(rt: HostRuntime) -> Result<(), Fail> {
    let mut bench = Bench::new(LockStatus::Fault);
    bench.set(113, 5)?;
    assert_eq!(rt; bench.tick(DoorStatus::Closed)?, Some(1));
    event(&rt, &bench, FAULT)?;
    bench.read(LockStatus::Locked);
    bench.ticks(50, DoorStatus::Closed)?;
    event(&rt, &bench, FAULT)?;
    assert_eq!(rt; bench.row().reliability().number(), 0);
    assert_eq!(rt; bench.tick(DoorStatus::Closed)?, Some(2));
    event(&rt, &bench, NORMAL)
}

#[test]
fn a_value_in_both_sets_is_a_fault(rt: HostRuntime) -> Result<(), Fail> {
    for reading in READINGS {
        let mut bench = Bench::new(reading);
        bench.set(39, 8)?;
        assert_eq!(rt; bench.tick(DoorStatus::Opened)?, Some(1));
        event(&rt, &bench, FAULT)?;
        bench.set(39, 0)?;
        assert_eq!(rt; bench.tick(DoorStatus::Opened)?, Some(0));
        event(&rt, &bench, OFFNORMAL)?;
        bench.set(7, 0)?;
        assert_eq!(rt; bench.tick(DoorStatus::Opened)?, Some(2));
    }
    Ok(())
}

#[test]
fn a_fault_takes_over_from_an_alarm(rt: HostRuntime) -> Result<(), Fail> {
    for reading in READINGS {
        let mut bench = Bench::new(reading);
        bench.ticks(1, DoorStatus::Opened)?;
        event(&rt, &bench, OFFNORMAL)?;
        bench.read(LockStatus::Fault);
        assert_eq!(rt; bench.tick(DoorStatus::Opened)?, Some(1));
        event(&rt, &bench, FAULT)?;
        bench.set(113, 1)?;
        bench.read(reading);
        for _ in 0..10 {
            assert_eq!(rt; bench.tick(DoorStatus::Opened)?, None);
        }
        assert_eq!(rt; bench.tick(DoorStatus::Opened)?, Some(0));
        event(&rt, &bench, OFFNORMAL)?;
    }
    Ok(())
}

#[test]
fn events_run_on_out_of_service(rt: HostRuntime) -> Result<(), Fail> {
    for reading in READINGS {
        let mut bench = Bench::new(reading);
        bench.service(1)?;
        bench.simulate(226, 4)?;
        event(&rt, &bench, NORMAL)?;
        assert_eq!(rt; bench.tick(DoorStatus::Closed)?, Some(0));
        bench.service(0)?;
        assert_eq!(rt; bench.row().sensed.alarm_state.number(), 0);
        assert_eq!(rt; bench.tick(DoorStatus::Closed)?, Some(2));
    }
    Ok(())
}

#[test]
fn a_disabled_transition_is_not_stamped(rt: HostRuntime) -> Result<(), Fail> {
    for reading in READINGS {
        let mut bench = Bench::new(reading);
        assert_eq!(rt; bench.tick(DoorStatus::Opened)?, Some(0));
        assert_eq!(rt; bench.tick(DoorStatus::Closed)?, Some(2));
        assert_eq!(rt; bench.row().events.acked.number(), 2);
        bench.set(35, 4)?;
        assert_eq!(rt; bench.tick(DoorStatus::Opened)?, Some(0));
        assert_eq!(rt; bench.row().events.acked.number(), 3);
        assert_eq!(rt; bench.row().events.stamps.to_offnormal, 1);
    }
    Ok(())
}

// UNLOCK at 10 and LOCK at 8, open too long masked, then a tick with the door shut and one with it open.
#[test]
fn a_forced_door_is_unsecured(rt: HostRuntime) -> Result<(), Fail> {
    for reading in READINGS {
        let mut bench = Bench::new(reading);
        bench.command(10, UNLOCK)?;
        bench.command(8, LOCK)?;
        bench.set(234, 4)?;
        bench.ticks(1, DoorStatus::Closed)?;
        assert_eq!(rt; bench.tick(DoorStatus::Opened)?, Some(0));
        assert_eq!(rt; bench.row().sensed.alarm_state.number(), 3);
        event(&rt, &bench, OFFNORMAL)?;
        assert_eq!(rt; bench.row().secured_status().number(), 1);
        assert_eq!(rt; bench.row().status_flags().number(), 1);
    }
    Ok(())
}
