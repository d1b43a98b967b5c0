//! The cells and gates of a hall over files: lane N reads the weights of its scale from `cell-N.txt`,
//! and opens its gate by a line in `gate-N.txt`. Either may be a named pipe, or a device of the system
//! as a serial line.
//!
//! Promised: a file that can't be opened fails at each call, and each call that fails counts one
//! fault. A cell that tells gives what it would give else.
//!
//! Tested: what standard error is told of files and lines, that two halls don't use one folder, and
//! that cells end and gates that would wait fail where somebody asks that the hall end (`stop_file`).
//!
//! Trusted: the system's calls, that they read, open, lock and write what they say. A file tells no
//! bytes, so no clause speaks of what stands in it; what the lines of a cell say and what a gate
//! writes is promised of `LineCell` and `LineGate`.
#![tactic(auto)]

mod folder_lock;
mod kept_source;
mod lanes;
mod late_file;
mod newest_lines;
mod pipes;
mod readiness;
mod reason;
mod teller;
mod told_cell;
mod told_lines;
mod types;

pub use folder_lock::{FolderLock, lock_folder};
pub use kept_source::KeptSource;
pub use lanes::{file_cell, file_gate};
pub use late_file::LateFile;
pub use told_cell::ToldCell;
pub use told_lines::ToldLines;
pub use types::{FileCell, FileGate};
