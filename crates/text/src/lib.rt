//! The lowest text layer: the lines of a text and the words of a line.
#![tactic(auto)]

pub mod lines;
mod scan;
pub mod words;
