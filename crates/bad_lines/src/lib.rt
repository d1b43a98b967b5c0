//! Why a line is bad, in words for people. The input keeps what it read last, the output what it said
//! last, so that the line that `bad line N` names can be shown.
//!
//! The input of a plan is watched as it is read: an act of its setup that has no desk is named on
//! standard error, since it acts again whenever the hall is begun again with the same plan.
//!
//! Of shipments it is known which one stands where, so that it is said why a copy follows one no more.
//!
//! Promised: a read gives what the input gives, a write gives the output what it was given. What is
//! told of a line stands in no clause; it is tested. Nor does what is told of words of the command
//! line that are outside the grammar.
#![tactic(auto)]

mod forms;
mod kept_input;
mod kept_output;
mod lines;
mod papers;
mod parts;
mod plan;
mod saying;
mod setup_lines;
mod shipments;
mod telling;
mod types;
mod watched;
mod words;

pub use kept_input::KeptInput;
pub use kept_output::{Fault, KeptOutput};
pub use saying::explain;
pub use telling::reason;
pub use types::Reason;
pub use watched::WatchedPlan;
pub use words::explain_words;
