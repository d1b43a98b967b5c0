//! Whether a batch passes: the contents of its packs, the defective ones, and the verdict. All
//! masses are whole milligrams.
#![tactic(auto)]

mod contents;
mod limits;
mod verdicts;

pub use book_state::{Drawn, KnownPack, LaneNow, NoMemory, Sample, State, lane_number};
pub use verdicts::{count_first, count_second, is_open, verdict_of};
