//! Tests of the report: writing, reading, applying, and the way from rows to a mirror of them.
#![tactic(auto)]

#[cfg(test)]
mod applying;
#[cfg(test)]
mod fixture;
#[cfg(test)]
mod reading;
#[cfg(test)]
mod round_trip;
#[cfg(test)]
mod writing;
