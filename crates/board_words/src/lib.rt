//! The words that ask for a board, which a wiring list and a list of calls write the same way.
#![tactic(auto)]

pub mod wanted;
