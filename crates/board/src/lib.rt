//! What every board is: the trait with its meaning, what contacts, monitors and outputs say, and refusals.
#![tactic(auto)]

pub mod board;
pub mod refusal;
pub mod status;
