//! Tests of the boards: each rule of a byte at its edges, making, driving, refusals, and the steady contact.
#![tactic(auto)]

#[cfg(test)]
mod driving;
mod latch;
#[cfg(test)]
mod loop_bytes;
#[cfg(test)]
mod making;
#[cfg(test)]
mod plain_bytes;
#[cfg(test)]
mod refusals;
#[cfg(test)]
mod steadying;
