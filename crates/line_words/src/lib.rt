//! Typed words: numbers, bytes and keywords read from the words of a line, and what can be wrong with one.
#![tactic(auto)]

pub mod fault;
pub mod read;
