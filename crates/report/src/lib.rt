//! The compact report: the fields that have changed, and the bytes of their records.
#![tactic(auto)]

pub mod fields;
pub mod value;
pub mod write;
