//! A lane that changes its batch while it runs: the batches come from its cell, between the weights.
//! It is worked for one batch after another, and waits with its gate shut where it has none.
#![tactic(auto)]

mod changing;
mod course;
mod notices;
mod types;

pub use changing::{MAX_STINTS, run_changes};
pub use notices::ChangeNotices;
pub use types::Next;
