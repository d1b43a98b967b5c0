//! Every command of the program but `serve`: they wait for nobody.
#![tactic(auto)]

mod alone;
mod ended;
mod reports;
mod whole;

pub use alone::{end_answer, end_call, hall_alone, is_serve, leave_unopened};
pub use call_endings::{Ending, end_unopened, end_without_memory, say_last};
pub use ended::{Ended, Outcome};
pub use script_run::LaneEnds;
