ghost use Rattle.std.specs.Prelude.{◌≡◌, false, MatchOption};
ghost use Rattle.door.specs.Row.{legal};
ghost use Rattle.door.specs.Calls.{value_answer, command_answer, set_row_answer, simulate_answer, out_answer, service_answer, acknowledge_answer, with_simulated, row_of};

use crate::door::Door;
use crate::row::Row;
use crate::simulated::Simulated;
use board::refusal::Cause;
use events::event::Transition;
use slots::priority::slot_of;
use slots::value::{DoorValue, value_of};

// The generic conversion at door values. Its own contract is a relation, from which the check does not find what a
// command gives; from this equation it does.
fn door_value_of(number: Option<u64>) -> Result<Option<DoorValue>, Cause>
    ensures { result ≡ value_answer number }
{
    value_of(number)
}

/// Whether a number takes a door out of service.
// By hand, since no impl of std takes 0 and 1 to a bool.
fn out_of(number: u64) -> Result<bool, Cause>
    ensures { result ≡ out_answer number }
{
    match number {
        0 => Ok(false),
        1 => Ok(true),
        _ => Err(Cause::ValueOutOfRange),
    }
}

fn command_row(row: Row, priority: u64, value: Option<u64>) -> Result<Row, Cause>
    ensures { result ≡ command_answer row priority value }
{
    let place = slot_of(priority)?;
    let known = door_value_of(value)?;
    let commanded = row.commanded.written(&row.settings, place, known);
    Ok(Row { commanded, ..row }.settled(row.sensed.alarm_state))
}

// Item and number as a call is handed them: what the two say together is an `Item` or a `Simulated` only after the test.
fn set_row(row: Row, item: u64, number: u64) -> Result<Row, Cause>
    ensures { result ≡ set_row_answer row item number }
{
    let settings = row.settings.set(item, number)?;
    Ok(Row { settings, ..row }.settled(row.sensed.alarm_state))
}

fn write_simulated(row: Row, simulated: Simulated) -> Row
    ensures { result ≡ with_simulated row simulated }
{
    let sensed = match simulated {
        Simulated::Door(status) => row.sensed.with_status(row.commanded.present_value, status),
        Simulated::Lock(status) => row.sensed.with_lock(status),
        Simulated::Alarm(state) => row.sensed.with_alarm(state),
    };
    Row { sensed, ..row }
}

fn simulate_row(row: Row, item: u64, number: u64) -> Result<Row, Cause>
    ensures { result ≡ simulate_answer row item number }
{
    let simulated = Simulated::of(item, number)?;
    if !row.out_of_service {
        return Err(Cause::SimulateInService);
    }
    if simulated.is_masked(&row.settings) {
        return Err(Cause::AlarmStateMasked);
    }
    Ok(write_simulated(row, simulated).settled(row.sensed.alarm_state))
}

fn service_row(row: Row, number: u64) -> Result<Row, Cause>
    ensures { result ≡ service_answer row number }
{
    let out_of_service = out_of(number)?;
    Ok(Row {
        out_of_service,
        ..row
    }
    .settled(row.sensed.alarm_state))
}

fn acknowledge_row(row: Row, number: u64) -> Result<Row, Cause>
    ensures { result ≡ acknowledge_answer row number }
{
    let transition = Transition::try_from(number)?;
    let events = row.events.acknowledged(transition);
    Ok(Row { events, ..row }.settled(row.sensed.alarm_state))
}

impl Door {
    // A method and no `TryFrom`: an error type of its own would say no more than None.
    /// The door of a row, unless the row holds what no door may hold.
    pub fn from_row(row: Row) -> Option<Door>
        ensures { MatchOption result (legal row ≡ false) (λ d. d.row ≡ row) }
    {
        if !row.is_legal() {
            return None;
        }
        Some(Door { row })
    }

    // A method and no `From`: it undoes `from_row`, and the two are read together.
    pub fn into_row(self) -> Row
        ensures { result ≡ self.row }
    {
        let row: Row = self.row;
        row
    }

    // Five calls of one shape, each with the equation of its own: one over a closure would say less.

    /// Writes a value, or NULL, at a priority.
    #[tactic(auto, using(crate::proofs::Legal::legal_command))]
    pub fn command(self, priority: u64, value: Option<u64>) -> Result<Door, Cause>
        ensures { row_of result ≡ command_answer self.row priority value }
    {
        let row = command_row(self.row, priority, value)?;
        Ok(Door { row })
    }

    /// Sets an item.
    #[tactic(auto, using(crate::proofs::Legal::legal_set))]
    pub fn set(self, item: u64, number: u64) -> Result<Door, Cause>
        ensures { row_of result ≡ set_row_answer self.row item number }
    {
        let row = set_row(self.row, item, number)?;
        Ok(Door { row })
    }

    /// Writes what is sensed, as if the hardware had said it; only out of service.
    #[tactic(auto, using(crate::proofs::Legal::legal_simulate))]
    pub fn simulate(self, item: u64, number: u64) -> Result<Door, Cause>
        ensures { row_of result ≡ simulate_answer self.row item number }
    {
        let row = simulate_row(self.row, item, number)?;
        Ok(Door { row })
    }

    /// Takes the door out of service (1) or into it (0).
    #[tactic(auto, using(crate::proofs::Legal::legal_service))]
    pub fn service(self, number: u64) -> Result<Door, Cause>
        ensures { row_of result ≡ service_answer self.row number }
    {
        let row = service_row(self.row, number)?;
        Ok(Door { row })
    }

    /// Acknowledges the transition with that number.
    #[tactic(auto, using(crate::proofs::Legal::legal_acknowledge))]
    pub fn acknowledge(self, number: u64) -> Result<Door, Cause>
        ensures { row_of result ≡ acknowledge_answer self.row number }
    {
        let row = acknowledge_row(self.row, number)?;
        Ok(Door { row })
    }
}
