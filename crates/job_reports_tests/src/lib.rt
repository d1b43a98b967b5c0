//! Tests of the lines of jobs by their public calls.
#![tactic(auto)]

#[cfg(test)]
mod doors;
#[cfg(test)]
mod lanes;
