ghost use Rattle.std.specs.Prelude.{◌≡◌, ◌++◌, Some, OnOk, string_bytes};
ghost use Rattle.decoding.specs.Field.{field_name, field_value, NamesOrNumbers, value_text};

use board::refusal::Cause;
use board::status::{DoorStatus, LockStatus, Output};
use door::shown::SecuredStatus;
use events::alarm::AlarmState;
use report::fields::Fields;
use slots::value::DoorValue;
use std::alloc::AllocError;
use std::fmt;

/// The fields of a row, in the order in which a record has them.
#[derive(Clone, Copy)]
pub(crate) enum Field {
    PresentValue,
    StatusFlags,
    DoorAlarmState,
    DoorStatus,
    LockStatus,
    SecuredStatus,
    Output,
    ReleasedTenths,
}

pub(crate) const FIELDS: [Field; 8] = [
    Field::PresentValue,
    Field::StatusFlags,
    Field::DoorAlarmState,
    Field::DoorStatus,
    Field::LockStatus,
    Field::SecuredStatus,
    Field::Output,
    Field::ReleasedTenths,
];

/// Writes the name of the value with that number, or the number where no value has it.
fn push_name_or_number<V: TryFrom<u64, Error = Cause> + fmt::Display + Copy>(
    out: &mut String,
    number: u32,
) -> Result<(), AllocError>
    ensures { OnOk result (NamesOrNumbers V.try_from_gives V.output number (λ text. string_bytes out.new ≡ string_bytes out.old ++ text)) }
{
    match V::try_from(u64::from(number)) {
        Ok(value) => write!(out, "{value}"),
        Err(_) => write!(out, "{number}"),
    }
}

impl fmt::Display for Field {
    ghost output = { λ field. Some (field_name field) };

    fn fmt<W: fmt::Write>(&self, f: &mut fmt::Formatter<W>) -> fmt::Result {
        f.write_str(match self {
            Field::PresentValue => "Present_Value",
            Field::StatusFlags => "Status_Flags",
            Field::DoorAlarmState => "Door_Alarm_State",
            Field::DoorStatus => "Door_Status",
            Field::LockStatus => "Lock_Status",
            Field::SecuredStatus => "Secured_Status",
            Field::Output => "output",
            Field::ReleasedTenths => "released_tenths",
        })
    }
}

impl Field {
    /// What some fields have here.
    pub(crate) fn value_in(self, fields: &Fields) -> Option<u32>
        ensures { result ≡ field_value self fields.now }
    {
        match self {
            Field::PresentValue => fields.present_value.map(u32::from),
            Field::StatusFlags => fields.status_flags.map(u32::from),
            Field::DoorAlarmState => fields.door_alarm_state.map(u32::from),
            Field::DoorStatus => fields.door_status.map(u32::from),
            Field::LockStatus => fields.lock_status.map(u32::from),
            Field::SecuredStatus => fields.secured_status.map(u32::from),
            Field::Output => fields.output.map(u32::from),
            Field::ReleasedTenths => fields.released_tenths,
        }
    }

    /// Writes the name of a value, or its number where it has none.
    pub(crate) fn push_value(self, out: &mut String, number: u32) -> Result<(), AllocError>
        ensures { OnOk result (string_bytes out.new ≡ string_bytes out.old ++ value_text self number) }
    {
        match self {
            Field::PresentValue => push_name_or_number::<DoorValue>(out, number),
            Field::DoorAlarmState => push_name_or_number::<AlarmState>(out, number),
            Field::DoorStatus => push_name_or_number::<DoorStatus>(out, number),
            Field::LockStatus => push_name_or_number::<LockStatus>(out, number),
            Field::SecuredStatus => push_name_or_number::<SecuredStatus>(out, number),
            Field::Output => push_name_or_number::<Output>(out, number),
            Field::StatusFlags | Field::ReleasedTenths => write!(out, "{number}"),
        }
    }
}
