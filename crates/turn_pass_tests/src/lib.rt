//! Two passes over a history of three rows, worked out by hand.
#![tactic(auto)]

#[cfg(test)]
mod passes;
