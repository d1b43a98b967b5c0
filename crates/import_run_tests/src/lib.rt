//! Tests of a run of an import over a book on a disk by its public call.
#![tactic(auto)]

#[cfg(test)]
mod faults;
#[cfg(test)]
mod long;
#[cfg(test)]
mod runs;
#[cfg(test)]
mod tables;
