//! What people should know of a run, on standard error: which lines of a setup are refused, that
//! lanes and doors are at work at once, and how each of them ends; and at a terminal that there is no
//! book, that a day is far ahead, that few rows are left.
//!
//! None of it stands in a clause; it is tested.
#![tactic(auto)]

mod job_lines;
mod meanings;
mod run_notices;

pub use run_notices::RunNotices;
