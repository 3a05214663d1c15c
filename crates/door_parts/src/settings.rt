ghost use Rattle.std.specs.Prelude.{◌≡◌, ok_or};
ghost use Rattle.board.specs.declared.refusal.Cause.TheVariants.{NoSuchItem};
ghost use Rattle.door_parts.specs.Settings.{item_number, item_of, settings_at_making, number_answer, set_of_answer, default_answer, set_answer, set_item_answer};

use board::refusal::Cause;
use slots::value::DoorValue;

/// What can be set of a door, by its BACnet property.
#[derive(Clone, Copy)]
pub enum Item {
    AlarmValues = 7,
    EventEnable = 35,
    FaultValues = 39,
    RelinquishDefault = 104,
    TimeDelay = 113,
    DoorExtendedPulseTime = 227,
    DoorOpenTooLongTime = 229,
    DoorPulseTime = 230,
    DoorUnlockDelayTime = 232,
    MaskedAlarmValues = 234,
}

// The sets are numbers, bit strings of BACnet, as a set call is given them.
/// The settings of a door. The four times are in tenths, Time_Delay is in seconds; of the three sets of alarm states,
/// bit k is the state with number k; of Event_Enable, bit 0 is TO-OFFNORMAL, 1 TO-FAULT, 2 TO-NORMAL.
#[derive(Clone, Copy)]
pub struct Settings {
    pub door_pulse_time: u32,
    pub door_extended_pulse_time: u32,
    pub door_unlock_delay_time: u32,
    pub door_open_too_long_time: u32,
    pub time_delay: u32,
    pub relinquish_default: DoorValue,
    pub masked_alarm_values: u16,
    pub alarm_values: u16,
    pub fault_values: u16,
    pub event_enable: u8,
}

impl Item {
    pub fn number(self) -> u8
        ensures { result ≡ item_number self }
    {
        self as u8
    }
}

impl TryFrom<u64> for Item {
    type Error = Cause;

    ghost try_from_gives = { λ number r. r ≡ ok_or (item_of number) NoSuchItem };

    fn try_from(number: u64) -> Result<Item, Cause> {
        match number {
            7 => Ok(Item::AlarmValues),
            35 => Ok(Item::EventEnable),
            39 => Ok(Item::FaultValues),
            104 => Ok(Item::RelinquishDefault),
            113 => Ok(Item::TimeDelay),
            227 => Ok(Item::DoorExtendedPulseTime),
            229 => Ok(Item::DoorOpenTooLongTime),
            230 => Ok(Item::DoorPulseTime),
            232 => Ok(Item::DoorUnlockDelayTime),
            234 => Ok(Item::MaskedAlarmValues),
            _ => Err(Cause::NoSuchItem),
        }
    }
}

/// A number of at most that size.
fn up_to(most: u32, number: u64) -> Result<u32, Cause>
    ensures { result ≡ number_answer most number }
{
    if number > u64::from(most) {
        return Err(Cause::ValueOutOfRange);
    }
    Ok(number as u32)
}

/// A set of alarm states: bits 1 to 8 alone.
fn set_of(number: u64) -> Result<u16, Cause>
    ensures { result ≡ set_of_answer number }
{
    if number > 510 || number % 2 == 1 {
        return Err(Cause::ValueOutOfRange);
    }
    Ok(number as u16)
}

/// A default is no pulse.
fn default_of(number: u64) -> Result<DoorValue, Cause>
    ensures { result ≡ default_answer number }
{
    let value = DoorValue::try_from(number)?;
    if value.is_pulse() {
        return Err(Cause::ValueOutOfRange);
    }
    Ok(value)
}

impl Settings {
    pub fn at_making() -> Settings
        ensures { result ≡ settings_at_making }
    {
        Settings {
            door_pulse_time: 60,
            door_extended_pulse_time: 300,
            door_unlock_delay_time: 0,
            door_open_too_long_time: 300,
            time_delay: 0,
            relinquish_default: DoorValue::Lock,
            masked_alarm_values: 0,
            alarm_values: 28,
            fault_values: 32,
            event_enable: 7,
        }
    }

    /// The settings with one item changed.
    fn with(self, item: Item, number: u64) -> Result<Settings, Cause>
        ensures { result ≡ set_answer self item number }
    {
        let mut changed = self;
        match item {
            Item::AlarmValues => changed.alarm_values = set_of(number)?,
            // Three bits, one for each transition.
            Item::EventEnable => changed.event_enable = up_to(7, number)? as u8,
            Item::FaultValues => changed.fault_values = set_of(number)?,
            Item::RelinquishDefault => changed.relinquish_default = default_of(number)?,
            Item::TimeDelay => changed.time_delay = up_to(86_400, number)?,
            Item::DoorExtendedPulseTime => changed.door_extended_pulse_time = up_to(
                864_000, number,
            )?,
            Item::DoorOpenTooLongTime => changed.door_open_too_long_time = up_to(864_000, number)?,
            Item::DoorPulseTime => changed.door_pulse_time = up_to(864_000, number)?,
            Item::DoorUnlockDelayTime => changed.door_unlock_delay_time = up_to(864_000, number)?,
            Item::MaskedAlarmValues => changed.masked_alarm_values = set_of(number)?,
        }
        Ok(changed)
    }

    /// The settings after a set call: an item that there is not is refused before any number.
    pub fn set(self, item: u64, number: u64) -> Result<Settings, Cause>
        ensures { result ≡ set_item_answer self item number }
    {
        self.with(Item::try_from(item)?, number)
    }
}
