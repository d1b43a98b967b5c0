//! What is done at the lines of a script, one after another, and what is printed of it: a command is
//! asked of a book and answered, or a lane is worked.
#![tactic(auto)]

mod asking;
mod composing;
mod lane_ends;
mod work;

pub use asking::{SCRIPT, Unanswered, ask_at, ask_command};
pub use composing::{append_summary, compose_answer, compose_summary};
pub use lane_ends::LaneEnds;
pub use work::{Worked, work_lane};
