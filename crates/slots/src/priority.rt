ghost use Rattle.std.specs.Prelude.{◌≡◌, ◌<◌, true, is_ok};
ghost use Rattle.slots.specs.Priority.{present, slot_answer, Below16};

use board::refusal::Cause;

// A loop and no `find_map`: std tells of that call by call, and no lemma of it turns the calls into a rule over a list.
/// The priority rule, for every kind of commanded value: the value in the lowest-numbered filled slot, else the default.
pub fn present_value<T: Copy>(slots: &[Option<T>], default: T) -> T
    ensures { result ≡ present slots.now default }
{
    for slot in slots {
        if let Some(value) = slot {
            return *value;
        }
    }
    default
}

/// Where the slot of a priority stands in its table: priorities are 1 to 16, and 6 is reserved.
pub fn slot_of(priority: u64) -> Result<usize, Cause>
    ensures value { result ≡ slot_answer priority }
    ensures within { Below16 result }
{
    match priority {
        1..=5 | 7..=16 => Ok(priority as usize - 1),
        _ => Err(Cause::NoSuchPriority),
    }
}
