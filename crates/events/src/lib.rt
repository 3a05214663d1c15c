//! Alarm states and events: what an alarm leads to, and how transitions are noted.
#![tactic(auto)]

pub mod alarm;
pub mod event;
pub mod per_transition;
