//! The steady contact, a layer over any board.
#![tactic(auto)]

mod run;
pub mod steady;
