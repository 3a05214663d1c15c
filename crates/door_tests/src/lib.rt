//! Tests of one door: rules where one could stumble, on doors with a lock monitor and without.
#![tactic(auto)]

#[cfg(test)]
mod alarms;
#[cfg(test)]
mod commands;
#[cfg(test)]
mod event_states;
#[cfg(test)]
mod fixture;
#[cfg(test)]
mod limits;
#[cfg(test)]
mod service;
#[cfg(test)]
mod shown;
#[cfg(test)]
mod sounder;
