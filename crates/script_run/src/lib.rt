//! A run of a script over a book on a disk: each line is answered before the next is read, lanes are
//! worked where a line says so, and the balance comes last.
#![tactic(auto)]

mod run;
mod script;

pub use script::{MAX_READS, run_script};
pub use script_events::LaneEnds;
pub use script_session::{LaneLog, ScriptEnd};
