//! The plain board and the loop board: one board over the bytes of a tick, and the two rules for what the bytes say.
#![tactic(auto)]

pub mod byte_board;
mod door_bytes;
pub mod loop_board;
pub mod making;
pub mod plain_board;
mod terminals;
