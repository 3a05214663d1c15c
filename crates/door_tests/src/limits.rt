use crate::fixture::{accepted, door_of, refused};
use board::refusal::Cause;
use board::status::{DoorStatus, LockStatus};
use door::door::Door;
use door::row::Row;
use door_parts::sensed::Sensed;
use door_parts::settings::Settings;
use slots::timed::Timed;
use slots::value::DoorValue;
use std::test::*;

fn ticked(row: Row, contact: DoorStatus) -> Result<Row, Fail> {
    let ticked = accepted(door_of(row)?.tick(contact, LockStatus::Unknown, 7))?;
    Ok(ticked.door.into_row())
}

#[test]
fn a_row_with_a_pulse_as_default_makes_no_door(rt: HostRuntime) -> Result<(), Fail> {
    let made = Row::at_making();
    let pulsed = Settings {
        relinquish_default: DoorValue::PulseUnlock,
        ..made.settings
    };
    assert!(rt;
        Door::from_row(Row {
            settings: pulsed,
            ..made
        })
        .is_none()
    );
    let mut ended = made;
    ended.commanded.slots.write(
        3,
        Some(Timed {
            value: DoorValue::ExtendedPulseUnlock,
            left: 0,
        }),
    );
    assert!(rt; Door::from_row(ended).is_none());
    let mut standing = made;
    standing.commanded.slots.write(
        3,
        Some(Timed {
            value: DoorValue::ExtendedPulseUnlock,
            left: 1,
        }),
    );
    assert!(rt; Door::from_row(standing).is_some());
    Ok(())
}

#[test]
fn counts_stop_at_864000(rt: HostRuntime) -> Result<(), Fail> {
    let made = Row::at_making();
    let sensed = Sensed {
        door_status: DoorStatus::Opened,
        open_count: 863_999,
        held_count: 863_999,
        ..made.sensed
    };
    let settings = Settings {
        masked_alarm_values: 4,
        ..made.settings
    };
    let once = ticked(
        Row {
            sensed,
            settings,
            ..made
        },
        DoorStatus::Opened,
    )?;
    assert_eq!(rt; once.sensed.open_count, 864_000);
    assert_eq!(rt; once.sensed.held_count, 864_000);
    let twice = ticked(once, DoorStatus::Opened)?;
    assert_eq!(rt; twice.sensed.open_count, 864_000);
    assert_eq!(rt; twice.sensed.held_count, 864_000);
    Ok(())
}

#[test]
fn a_door_released_for_so_long_is_not_ticked(rt: HostRuntime) -> Result<(), Fail> {
    let made = Row::at_making();
    let full = Row {
        released_tenths: 2_000_000_000,
        ..made
    };
    refused(
        &rt,
        &[7],
        door_of(full)?.tick(DoorStatus::Closed, LockStatus::Unknown, 7),
        Cause::LastTenth,
    )?;
    let nearly = Row {
        released_tenths: 1_999_999_999,
        ..made
    };
    assert_eq!(rt;
        ticked(nearly, DoorStatus::Closed)?.released_tenths,
        1_999_999_999
    );
    Ok(())
}
