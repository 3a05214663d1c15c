ghost use Rattle.std.specs.Prelude.{◌≡◌};
ghost use Rattle.slots.specs.Timed.{stored, pulse_stored};
ghost use Rattle.door_parts.specs.Commanded.{commanded_at_making, output_for, delay_after, settled_command, written, ticked_command};

use crate::settings::Settings;
use board::status::Output;
use slots::priority_array::PriorityArray;
use slots::timed::Timed;
use slots::value::DoorValue;

/// What follows from commands, settings, service and ticks, with no contact and no reading: the slots, the value that
/// rules them, how long a pulse still waits before it releases, and what the output is driven to.
#[derive(Clone, Copy)]
pub struct Commanded {
    pub slots: PriorityArray<Timed>,
    pub present_value: DoorValue,
    pub delay_left: u32,
    pub output: Output,
}

fn output_for(value: DoorValue, delay_left: u32) -> Output
    ensures { result ≡ output_for value delay_left }
{
    match value {
        DoorValue::Lock => Output::Held,
        DoorValue::Unlock => Output::Released,
        _ => {
            if delay_left == 0 {
                Output::Released
            } else {
                Output::Held
            }
        }
    }
}

/// The delay left under the value that now rules, where another or the same ruled before.
fn delay_after(before: DoorValue, now_rules: DoorValue, delay_left: u32, unlock_delay: u32) -> u32
    ensures { result ≡ delay_after before now_rules delay_left unlock_delay }
{
    if !now_rules.is_pulse() {
        0
    } else if before.is_lock() {
        unlock_delay
    } else {
        delay_left
    }
}

/// What a pulse of that time is stored as.
fn store_pulse(outranked: bool, value: DoorValue, time: u32) -> Option<Timed>
    ensures { result ≡ pulse_stored outranked value time }
{
    if outranked || time == 0 {
        return None;
    }
    Some(Timed { value, left: time })
}

/// What a commanded value is stored as, where something stands at a lower number or not.
fn store(outranked: bool, settings: &Settings, value: Option<DoorValue>) -> Option<Timed>
    ensures { result ≡ stored outranked settings.now.door_pulse_time settings.now.door_extended_pulse_time value }
{
    let value = value?;
    match value {
        DoorValue::Lock | DoorValue::Unlock => Some(Timed { value, left: 0 }),
        DoorValue::PulseUnlock => store_pulse(outranked, value, settings.door_pulse_time),
        DoorValue::ExtendedPulseUnlock => store_pulse(
            outranked,
            value,
            settings.door_extended_pulse_time,
        ),
    }
}

impl Commanded {
    pub fn at_making() -> Commanded
        ensures { result ≡ commanded_at_making }
    {
        Commanded {
            slots: PriorityArray::empty(),
            present_value: DoorValue::Lock,
            delay_left: 0,
            output: Output::Held,
        }
    }

    /// What rules is worked out, then the delay, then, in service, the output.
    pub fn settled(self, settings: &Settings, out_of_service: bool) -> Commanded
        ensures { result ≡ settled_command self settings.now out_of_service }
    {
        let present_value = self.slots.present_value(settings.relinquish_default);
        let delay_left = delay_after(
            self.present_value,
            present_value,
            self.delay_left,
            settings.door_unlock_delay_time,
        );
        let output = if out_of_service {
            self.output
        } else {
            output_for(present_value, delay_left)
        };
        Commanded {
            slots: self.slots,
            present_value,
            delay_left,
            output,
        }
    }

    /// A command stores its value in its slot. A pulse whose time is 0, or over which something stands, leaves NULL.
    pub fn written(self, settings: &Settings, place: usize, value: Option<DoorValue>) -> Commanded
        ensures { result ≡ written self settings.now place value }
    {
        let outranked = self.slots.is_filled_before(place);
        let mut slots = self.slots;
        slots.write(place, store(outranked, settings, value));
        Commanded { slots, ..self }
    }

    /// One tick on: times left and delay left fall.
    pub fn ticked(self) -> Commanded
        ensures { result ≡ ticked_command self }
    {
        Commanded {
            slots: self.slots.fallen(),
            delay_left: self.delay_left.saturating_sub(1),
            ..self
        }
    }
}
