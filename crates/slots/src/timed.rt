ghost use Rattle.std.specs.Prelude.{◌≡◌, map};
ghost use Rattle.slots.specs.Timed.{door_present, timed, all_timed, fallen};

use crate::priority_array::PriorityArray;
use crate::value::DoorValue;

/// A value that stands in a slot of a door. A pulse has time left, in ticks; LOCK and UNLOCK have none, written 0.
// No enum with the time inside its pulses: each rule that reads the value would have to take it apart first.
#[derive(Clone, Copy)]
pub struct Timed {
    pub value: DoorValue,
    pub left: u32,
}

fn is_timed(slot: Option<Timed>) -> bool
    ensures { result ≡ timed slot }
{
    slot.is_none_or(|standing| !standing.value.is_pulse() || standing.left > 0)
}

fn fall(slot: Option<Timed>) -> Option<Timed>
    ensures { result ≡ fallen slot }
{
    let standing = slot?;
    if !standing.value.is_pulse() {
        return slot;
    }
    if standing.left <= 1 {
        return None;
    }
    Some(Timed {
        value: standing.value,
        left: standing.left - 1,
    })
}

// A loop in place and no `map` of the array, which makes two more tables of its size: `fallen` took 1.6 times the instructions.
fn fall_each(slots: &mut [Option<Timed>])
    ensures { slots.new ≡ map fallen slots.old }
{
    for slot in slots.iter_mut() {
        *slot = fall(*slot);
    }
}

impl PriorityArray<Timed> {
    /// The value that rules a door whose default is that value.
    pub fn present_value(&self, relinquish_default: DoorValue) -> DoorValue
        ensures { result ≡ door_present self.now.at relinquish_default }
    {
        let default = Timed {
            value: relinquish_default,
            left: 0,
        };
        self.present(default).value
    }

    /// Whether every pulse that stands has time left.
    pub fn are_timed(&self) -> bool
        ensures { result ≡ all_timed self.now.at }
    {
        self.at.iter().all(|slot| is_timed(*slot))
    }

    /// One tick on: each pulse's time falls by 1, and a pulse whose time is up is NULL.
    pub fn fallen(self) -> PriorityArray<Timed>
        ensures { result.at ≡ map fallen self.at }
    {
        let mut at = self.at;
        fall_each(&mut at);
        PriorityArray { at }
    }
}
