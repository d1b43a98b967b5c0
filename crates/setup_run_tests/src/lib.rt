//! Tests of plans that are read whole and of their setups, by the public calls of `text_streams` and
//! `setup_run`.
#![tactic(auto)]

#[cfg(test)]
mod faults;
#[cfg(test)]
mod inputs;
#[cfg(test)]
mod plans;
#[cfg(test)]
mod runs;
#[cfg(test)]
mod setups;
