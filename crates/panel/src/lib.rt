//! A panel of access doors and one sounder, over any board.
#![tactic(auto)]

pub mod panel;
