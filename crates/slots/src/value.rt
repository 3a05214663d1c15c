ghost use Rattle.std.specs.Prelude.{◌≡◌, ok_or, Some};
ghost use Rattle.slots.specs.Value.{door_value_number, door_value_of, door_value_name, is_pulse, is_lock};
ghost use Rattle.slots.specs.Value.{ValueAnswer};
ghost use Rattle.board.specs.declared.refusal.Cause.TheVariants.{ValueOutOfRange};

use board::refusal::Cause;
use std::fmt;

/// What a door can be commanded to.
#[derive(Clone, Copy, PartialEq, Eq)]
pub enum DoorValue {
    Lock = 0,
    Unlock = 1,
    PulseUnlock = 2,
    ExtendedPulseUnlock = 3,
}

impl DoorValue {
    pub fn number(self) -> u8
        ensures { result ≡ door_value_number self }
    {
        self as u8
    }

    pub fn is_lock(self) -> bool
        ensures { result ≡ is_lock self }
    {
        self == DoorValue::Lock
    }

    // Two patterns: `==` compares with one value alone.
    /// A value that ends by itself.
    pub fn is_pulse(self) -> bool
        ensures { result ≡ is_pulse self }
    {
        matches!(
            self,
            DoorValue::PulseUnlock | DoorValue::ExtendedPulseUnlock
        )
    }

    pub fn name(self) -> &'static str
        ensures { result.now ≡ door_value_name self }
    {
        match self {
            DoorValue::Lock => "LOCK",
            DoorValue::Unlock => "UNLOCK",
            DoorValue::PulseUnlock => "PULSE_UNLOCK",
            DoorValue::ExtendedPulseUnlock => "EXTENDED_PULSE_UNLOCK",
        }
    }
}

impl TryFrom<u64> for DoorValue {
    type Error = Cause;

    ghost try_from_gives = { λ number r. r ≡ ok_or (door_value_of number) ValueOutOfRange };

    fn try_from(number: u64) -> Result<DoorValue, Cause> {
        match number {
            0 => Ok(DoorValue::Lock),
            1 => Ok(DoorValue::Unlock),
            2 => Ok(DoorValue::PulseUnlock),
            3 => Ok(DoorValue::ExtendedPulseUnlock),
            _ => Err(Cause::ValueOutOfRange),
        }
    }
}

impl fmt::Display for DoorValue {
    ghost output = { λ value. Some (door_value_name value) };

    fn fmt<W: fmt::Write>(&self, f: &mut fmt::Formatter<W>) -> fmt::Result {
        f.write_str(DoorValue::name(*self))
    }
}

/// NULL, or the value with that number.
pub fn value_of<V: TryFrom<u64, Error = Cause>>(number: Option<u64>) -> Result<Option<V>, Cause>
    ensures { ValueAnswer V.try_from_gives number result }
{
    // A closure: the borrow checker takes no function of V by its name.
    number.map(|n| V::try_from(n)).transpose()
}
