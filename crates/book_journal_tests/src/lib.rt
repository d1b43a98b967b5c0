//! Tests of the journal and of its snapshots by their public calls: rows made by hand, crashes
//! after each call of a disk, calls that fail, and disks that hold what no journal wrote.
#![tactic(auto)]

#[cfg(test)]
mod appends;
#[cfg(test)]
mod dense;
#[cfg(test)]
mod disks;
#[cfg(test)]
mod failures;
#[cfg(test)]
mod journals;
#[cfg(test)]
mod rows;
#[cfg(test)]
mod snapshots;
