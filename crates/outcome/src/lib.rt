//! What a call that answers nothing else came to, as text.
#![tactic(auto)]

pub mod outcome;
