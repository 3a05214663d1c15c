//! The text of what a board answers to a call of a wiring list.
#![tactic(auto)]

pub mod answer;
