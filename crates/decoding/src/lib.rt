//! What a report says, as text: its records and the rows of a mirror by name, and the lines that hold reports in hex.
#![tactic(auto)]

pub mod field;
pub mod line;
pub mod said;
