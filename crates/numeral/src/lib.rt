//! Numbers and bytes written as words: decimal and hex.
#![tactic(auto)]

pub mod decimal;
pub mod hex;
