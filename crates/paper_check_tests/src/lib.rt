//! Tests of the check of a paper by its public call: true papers, and each fault at its line.
#![tactic(auto)]

#[cfg(test)]
mod faults;
#[cfg(test)]
mod forms;
#[cfg(test)]
mod papers;
#[cfg(test)]
mod rows;
