//! Wiring lists: the boards that a text asks for, and the calls that it makes on them.
#![tactic(auto)]

pub mod fault;
pub mod list;
pub mod step;
