//! Tests of disk_core by its public calls: what its streams, doors and disks answer, one after the other.
#![tactic(auto)]

#[cfg(test)]
mod disks;
#[cfg(test)]
mod doors;
#[cfg(test)]
mod streams;
