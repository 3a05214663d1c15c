//! Commanded values: the priority rule for every kind of them, door values with their running times, and the sounder.
#![tactic(auto)]

pub mod priority;
pub mod priority_array;
pub mod sounder;
pub mod timed;
pub mod value;
