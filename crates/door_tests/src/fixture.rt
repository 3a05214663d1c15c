use board::refusal::Cause;
use board::status::{DoorStatus, LockStatus};
use door::door::Door;
use door::row::Row;
use std::process::Abort;
use std::test::Fail;

// What the lock of a door reads: one with a monitor that says locked, and one without a monitor.
pub const READINGS: [LockStatus; 2] = [LockStatus::Locked, LockStatus::Unknown];

pub const LOCK: Option<u64> = Some(0);

pub const UNLOCK: Option<u64> = Some(1);

pub const PULSE: Option<u64> = Some(2);

pub const EXTENDED: Option<u64> = Some(3);

// A door under test, with its lock reading and the tenth that the last tick led to.
#[derive(Drop)]
pub struct Bench {
    row: Row,
    reading: LockStatus,
    tenth: u32,
}

impl Bench {
    pub(crate) fn new(reading: LockStatus) -> Bench {
        Bench {
            row: Row::at_making(),
            reading,
            tenth: 0,
        }
    }

    pub(crate) fn row(&self) -> Row {
        self.row
    }

    pub(crate) fn door(&self) -> Result<Door, Fail> {
        door_of(self.row)
    }

    fn store(&mut self, outcome: Result<Door, Cause>) -> Result<(), Fail> {
        self.row = accepted(outcome)?.into_row();
        Ok(())
    }

    pub(crate) fn command(&mut self, priority: u64, value: Option<u64>) -> Result<(), Fail> {
        let outcome = self.door()?.command(priority, value);
        self.store(outcome)
    }

    pub(crate) fn set(&mut self, item: u64, number: u64) -> Result<(), Fail> {
        let outcome = self.door()?.set(item, number);
        self.store(outcome)
    }

    pub(crate) fn simulate(&mut self, item: u64, number: u64) -> Result<(), Fail> {
        let outcome = self.door()?.simulate(item, number);
        self.store(outcome)
    }

    pub(crate) fn service(&mut self, number: u64) -> Result<(), Fail> {
        let outcome = self.door()?.service(number);
        self.store(outcome)
    }

    pub(crate) fn acknowledge(&mut self, number: u64) -> Result<(), Fail> {
        let outcome = self.door()?.acknowledge(number);
        self.store(outcome)
    }

    // One tick with that contact, and the number of the transition, if there was one.
    pub(crate) fn tick(&mut self, contact: DoorStatus) -> Result<Option<u8>, Fail> {
        self.tenth = self.tenth.saturating_add(1);
        let ticked = accepted(self.door()?.tick(contact, self.reading, self.tenth))?;
        self.row = ticked.door.into_row();
        Ok(ticked.transition.map(|transition| transition.number()))
    }

    pub(crate) fn ticks(&mut self, count: u32, contact: DoorStatus) -> Result<(), Fail> {
        for _ in 0..count {
            let _ = self.tick(contact)?;
        }
        Ok(())
    }

    pub(crate) fn read(&mut self, reading: LockStatus) {
        self.reading = reading;
    }
}

pub(crate) fn door_of(row: Row) -> Result<Door, Fail> {
    Door::from_row(row).ok_or_else(|| Fail::new("no row of a door"))
}

// What an accepted call gave; a refused one fails the test by its number.
pub(crate) fn accepted<T: Drop>(outcome: Result<T, Cause>) -> Result<T, Fail> {
    outcome.map_err(|cause| Fail::new(cause.number()))
}

// A call that was given these numbers is refused for that cause.
pub(crate) fn refused<T: Drop>(
    rt: &impl Abort,
    given: &[u64],
    outcome: Result<T, Cause>,
    wanted: Cause,
) -> Result<(), Fail> {
    assert_eq!(rt; outcome.err(), Some(wanted), "given {given:?}");
    Ok(())
}
