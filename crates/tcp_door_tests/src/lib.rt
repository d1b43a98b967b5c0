//! Tests of tcp_door over loopback.
#![tactic(auto)]

#[cfg(test)]
mod doors;
#[cfg(test)]
mod ports;
#[cfg(test)]
mod steps;
