//! `serve`: the plan of a hall is read and its setup asked, then all lanes and all doors of the
//! office run at once over one book, and their lines and the summary come last.
#![tactic(auto)]

mod jobs;
mod lines;
mod notices;
mod prepare;
mod serve;

pub use job_reports::{DoorEnds, JobsStop, ServeStop};
pub use notices::NoNotices;
pub use serve::{ServeEnd, run_serve};
pub use session_jobs::JobNotices;
pub use setup_run::SetupNotices;
