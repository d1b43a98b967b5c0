//! Opening a disk as a book: the rows that it lists are read into a book and its journal goes on
//! behind them, or it is told why not and handed back.
#![tactic(auto)]

mod content;
mod mounting;
mod opening;
mod replay;
mod slots;
mod types;

pub use mounting::mount;
pub use types::{MountError, Unmounted};
