//! Tests of trials by their public call: what is written, the rows that are left, and what a disk
//! or an output that fails makes of it.
#![tactic(auto)]

#[cfg(test)]
mod faults;
#[cfg(test)]
mod runs;
#[cfg(test)]
mod worked;
