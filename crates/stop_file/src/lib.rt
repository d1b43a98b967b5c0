//! The file by which somebody asks a hall to end in good order: it is called `stop` and lies in the
//! folder of the lanes' files.
//!
//! Promised: where there is no such file to look for, nobody asks. Trusted: the system's call that
//! looks for it.
#![tactic(auto)]

mod stop_file;

pub use stop_file::{LOOK, StopFile};
