//! The program: words and a disk in, a command done over the book, and its last line out.
#![tactic(auto)]

mod serving;
mod top;

pub use book_mount::MountError;
pub use command_line::{Command, Text, Wants, WantsError, wants};
pub use hall_alone::{Ended, Ending, end_unopened, end_without_memory, hall_alone};
pub use serve_run::{JobNotices, JobsStop, NoNotices, ServeStop, SetupNotices};
pub use top::hall;
