//! A trial: a script that is made from two numbers, command by command, and run over a book on a
//! disk. Of all that it would print the summary alone is written.
#![tactic(auto)]

mod asking;
mod batches;
mod commands;
mod names;
mod samples;
mod trial;
mod word;

pub use commands::{
    BATCH_PACKS, GROSSES, LANES, LEAST_GROSS, TRIAL_DAY, TRIAL_NOMINAL, TRIAL_TARE,
};
pub use trial::run_trial;
