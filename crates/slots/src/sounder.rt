ghost use Rattle.std.specs.Prelude.{◌≡◌, ok_or, Some};
ghost use Rattle.slots.specs.Sounder.{sounder_empty, sounder_present, sounder_answer, sounder_value_number, sounder_value_of};
ghost use Rattle.board.specs.declared.refusal.Cause.TheVariants.{ValueOutOfRange};

use crate::priority::slot_of;
use crate::priority_array::PriorityArray;
use crate::value::value_of;
use board::refusal::Cause;

/// What the sounder can be commanded to. Its default is INACTIVE.
#[derive(Clone, Copy)]
pub enum SounderValue {
    Inactive = 0,
    Active = 1,
}

impl SounderValue {
    pub fn number(self) -> u8
        ensures { result ≡ sounder_value_number self }
    {
        self as u8
    }
}

impl TryFrom<u64> for SounderValue {
    type Error = Cause;

    ghost try_from_gives = { λ number r. r ≡ ok_or (sounder_value_of number) ValueOutOfRange };

    fn try_from(number: u64) -> Result<SounderValue, Cause> {
        match number {
            0 => Ok(SounderValue::Inactive),
            1 => Ok(SounderValue::Active),
            _ => Err(Cause::ValueOutOfRange),
        }
    }
}

/// The sixteen slots of the sounder.
#[derive(Clone, Copy)]
pub struct Sounder {
    pub slots: PriorityArray<SounderValue>,
}

impl Sounder {
    pub fn at_making() -> Sounder
        ensures { result ≡ sounder_empty }
    {
        Sounder {
            slots: PriorityArray::empty(),
        }
    }

    /// The value that rules, by the priority rule.
    pub fn present(&self) -> SounderValue
        ensures { result ≡ sounder_present self.now }
    {
        self.slots.present(SounderValue::Inactive)
    }

    /// Writes a value, or NULL, at a priority.
    pub fn command(self, priority: u64, value: Option<u64>) -> Result<Sounder, Cause>
        ensures { result ≡ sounder_answer self priority value }
    {
        let place = slot_of(priority)?;
        let known = value_of(value)?;
        let mut slots = self.slots;
        slots.write(place, known);
        Ok(Sounder { slots })
    }
}
