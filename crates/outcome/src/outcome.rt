ghost use Rattle.std.specs.Prelude.{◌≡◌, IfOk, string_bytes};
ghost use Rattle.outcome.specs.Outcome.{outcome_text};

use board::refusal::Refusal;
use std::alloc::{AllocError, Global};

/// What a call that answers nothing else came to: accepted, or refused with number, layer and place.
pub fn outcome_text(heap: Global, outcome: Result<(), Refusal>) -> Result<String, AllocError>
    ensures { IfOk result (λ s. string_bytes s ≡ outcome_text outcome) }
{
    match outcome {
        Ok(()) => String::from_str(heap, "ok"),
        Err(refusal) => format!(in heap; "{refusal}"),
    }
}
