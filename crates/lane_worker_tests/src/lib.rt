//! Tests of the worker of a lane by its public calls: each of its stops, each call of its cell, its
//! gate and its disk failing in a run of twenty weights, a batch that its cell names, and the lines
//! of cells and gates.
#![tactic(auto)]

#[cfg(test)]
mod changes;
#[cfg(test)]
mod faults;
#[cfg(test)]
mod halls;
#[cfg(test)]
mod lines;
#[cfg(test)]
mod stops;
