use crate::fixture::{Bench, PULSE, READINGS, UNLOCK, refused};
use board::refusal::Cause;
use board::status::DoorStatus;
use std::test::*;

#[test]
fn out_of_service_three_things_rest(rt: HostRuntime) -> Result<(), Fail> {
    for reading in READINGS {
        let mut bench = Bench::new(reading);
        bench.ticks(1, DoorStatus::Closed)?;
        bench.command(10, PULSE)?;
        bench.service(1)?;
        assert_eq!(rt; bench.row().status_flags().number(), 8);
        bench.ticks(60, DoorStatus::Opened)?;
        assert_eq!(rt; bench.row().sensed.door_status.number(), 0);
        assert_eq!(rt; bench.row().commanded.present_value.number(), 0);
        assert_eq!(rt; bench.row().commanded.output.number(), 1);
        assert_eq!(rt; bench.row().released_tenths, 60);
        bench.ticks(1, DoorStatus::Opened)?;
        assert_eq!(rt; bench.row().released_tenths, 61);
        bench.service(0)?;
        assert_eq!(rt; bench.row().commanded.output.number(), 0);
        assert_eq!(rt; bench.row().sensed.door_status.number(), 0);
        bench.ticks(1, DoorStatus::Opened)?;
        assert_eq!(rt; bench.row().sensed.alarm_state.number(), 3);
    }
    Ok(())
}

#[test]
fn simulating_is_refused_in_order(rt: HostRuntime) -> Result<(), Fail> {
    for reading in READINGS {
        let mut bench = Bench::new(reading);
        bench.set(234, 16)?;
        refused(
            &rt,
            &[230, 0],
            bench.door()?.simulate(230, 0),
            Cause::NoSuchItem,
        )?;
        refused(
            &rt,
            &[230, 99],
            bench.door()?.simulate(230, 99),
            Cause::NoSuchItem,
        )?;
        for (item, number) in [(231u64, 3u64), (233, 4), (226, 9)] {
            refused(
                &rt,
                &[item, number],
                bench.door()?.simulate(item, number),
                Cause::ValueOutOfRange,
            )?;
            refused(
                &rt,
                &[item, number.saturating_sub(1)],
                bench.door()?.simulate(item, number.saturating_sub(1)),
                Cause::SimulateInService,
            )?;
        }
        refused(
            &rt,
            &[226, 4],
            bench.door()?.simulate(226, 4),
            Cause::SimulateInService,
        )?;
        bench.service(1)?;
        refused(
            &rt,
            &[226, 4],
            bench.door()?.simulate(226, 4),
            Cause::AlarmStateMasked,
        )?;
        bench.simulate(226, 8)?;
        assert_eq!(rt; bench.row().sensed.alarm_state.number(), 8);
        bench.set(234, 256)?;
        assert_eq!(rt; bench.row().sensed.alarm_state.number(), 0);
        refused(&rt, &[2], bench.door()?.service(2), Cause::ValueOutOfRange)?;
    }
    Ok(())
}

#[test]
fn a_simulated_opening_marks_like_a_real_one(rt: HostRuntime) -> Result<(), Fail> {
    for reading in READINGS {
        let mut bench = Bench::new(reading);
        bench.service(1)?;
        bench.simulate(231, 1)?;
        assert_eq!(rt; bench.row().sensed.forced, true);
        assert_eq!(rt; bench.row().sensed.alarm_state.number(), 0);
        bench.ticks(3, DoorStatus::Closed)?;
        assert_eq!(rt; bench.row().sensed.open_count, 3);
        bench.simulate(231, 1)?;
        assert_eq!(rt; bench.row().sensed.open_count, 3);
        bench.service(0)?;
        assert_eq!(rt; bench.row().sensed.alarm_state.number(), 3);
        bench.command(3, UNLOCK)?;
        assert_eq!(rt; bench.row().sensed.forced, false);
    }
    Ok(())
}

#[test]
fn a_changed_alarm_is_held_anew(rt: HostRuntime) -> Result<(), Fail> {
    for reading in READINGS {
        let mut bench = Bench::new(reading);
        bench.service(1)?;
        bench.ticks(7, DoorStatus::Closed)?;
        assert_eq!(rt; bench.row().sensed.held_count, 7);
        bench.simulate(226, 0)?;
        assert_eq!(rt; bench.row().sensed.held_count, 7);
        bench.simulate(226, 1)?;
        assert_eq!(rt; bench.row().sensed.held_count, 0);
        bench.ticks(2, DoorStatus::Closed)?;
        assert_eq!(rt; bench.row().sensed.held_count, 2);
    }
    Ok(())
}
