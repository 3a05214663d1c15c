ghost use Rattle.std.specs.Prelude.{◌≡◌, ⊤};
ghost use Rattle.slots.specs.Priority.{present};
ghost use Rattle.slots.specs.PriorityArray.{none_filled, written_at, before, any_filled};

use crate::priority::present_value;
use std::alloc::AllocError;

/// The sixteen slots of what can be commanded, that of priority p at place p - 1; an empty one is NULL.
// An array of sixteen, with no length beside it: there are sixteen priorities, filled or not.
#[derive(Copy)]
pub struct PriorityArray<T> {
    pub at: [Option<T>; 16],
}

// No derive: its proof does not close over an array of a parameter.
impl<T: Copy> Clone for PriorityArray<T> {
    ghost is_clone = { λ x y. y ≡ x };

    ghost is_infallible = { λ _. ⊤ };

    fn clone(&self) -> Result<PriorityArray<T>, AllocError> {
        Ok(*self)
    }
}

impl<T: Copy> PriorityArray<T> {
    /// All slots NULL.
    pub fn empty() -> PriorityArray<T>
        ensures { result.at ≡ none_filled }
    {
        PriorityArray { at: [None; 16] }
    }

    /// Replaces what stands at a place; past the last place there is nothing to replace.
    pub fn write(&mut self, place: usize, value: Option<T>)
        ensures { self.new.at ≡ written_at self.old.at place value }
    {
        if place < 16 {
            self.at[place] = value;
        }
    }

    /// The value that rules, by the priority rule.
    pub fn present(&self, default: T) -> T
        ensures { result ≡ present self.now.at default }
    {
        present_value(&self.at, default)
    }

    /// Whether something stands before a place.
    pub fn is_filled_before(&self, place: usize) -> bool
        ensures { result ≡ any_filled (before place self.now.at) }
    {
        self.at[..place.min(16)].iter().any(|slot| slot.is_some())
    }
}
