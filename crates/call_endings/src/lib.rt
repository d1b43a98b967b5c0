//! How a call of the program ended, its last line and its status.
#![tactic(auto)]

mod early;
mod ending;
mod served;

pub use ending::{Ending, end_unopened, end_without_memory, say_last};
