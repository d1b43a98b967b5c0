//! The proving of a paper: an input is read whole and checked, and its verdict is told.
#![tactic(auto)]

mod prove;
mod types;

pub use prove::prove_input;
pub use types::ProveEnd;
