//! Reading a report record by record, and applying records to the caller's mirror of rows.
#![tactic(auto)]

pub mod apply;
pub mod reader;
pub mod record;
pub mod reporting;
