//! Notices of transitions, and those of one door that wait.
#![tactic(auto)]

pub mod notice;
pub mod waiting;
