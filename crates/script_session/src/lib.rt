//! A session over a book on a disk: what a line of a script says is done, and what comes of it is on
//! the output before the next line; the balance comes last.
#![tactic(auto)]

mod lane_log;
mod session;
mod writing;

pub use lane_log::LaneLog;
pub use session::{ScriptEnd, Session};
