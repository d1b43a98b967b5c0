//! Tests of a changing lane by its public calls: which batches it is worked for and which rows it
//! adds, the starts that are refused, weights without a batch, each call of its cell, its gate and
//! its disk failing, and its bound.
#![tactic(auto)]

#[cfg(test)]
mod bound;
#[cfg(test)]
mod cases;
#[cfg(test)]
mod faults;
#[cfg(test)]
mod halls;
