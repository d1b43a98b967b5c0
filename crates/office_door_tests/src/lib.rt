//! Tests of the doors of the office by their public call: requests and their responses, every way
//! to cut two requests into two reads, and each call of the door and of the disk failing in a
//! session of three connections.
#![tactic(auto)]

#[cfg(test)]
mod cuts;
#[cfg(test)]
mod faults;
#[cfg(test)]
mod halls;
#[cfg(test)]
mod responses;
