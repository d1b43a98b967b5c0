//! The jobs of a session: lanes that are worked and doors that are served, all at once, over one
//! book under one lock. Each job has a thread of its own where one can be made, and is a caller of
//! its own number.
#![tactic(auto)]

mod begin;
mod crew;
mod job;
mod notices;
mod session;
mod work;

pub use begin::{JobsEnd, run_jobs};
pub use notices::JobNotices;
pub use work::{DoorJob, LaneJob, MAX_JOBS, Work};
