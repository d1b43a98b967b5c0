//! What prepares a hall: its plan, read whole, and the setup of that, a script of which nothing is
//! printed.
#![tactic(auto)]

mod asking;
mod lines;
mod notices;
mod planning;
mod setup;

pub use notices::{NoNotices, SetupNotices};
pub use planning::{NoPlan, read_whole_plan};
pub use setup::run_setup;
