//! The parts of a door, each stepped by itself: settings, what was commanded, and what is sensed.
#![tactic(auto)]

pub mod commanded;
pub mod sensed;
pub mod settings;
