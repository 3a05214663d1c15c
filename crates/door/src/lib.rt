//! One door: its record, the calls on it, its ticks, and what it shows. It knows no board and no panel.
#![tactic(auto)]

pub mod door;
pub mod row;
pub mod shown;
pub mod simulated;
