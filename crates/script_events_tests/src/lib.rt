//! Tests of a lane's work over a book on a disk by its public call: what the disk was offered where
//! it failed, and that a run goes on where it didn't.
#![tactic(auto)]

#[cfg(test)]
mod halls;
#[cfg(test)]
mod steps;
