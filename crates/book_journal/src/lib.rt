//! The journal: rows of 96 bytes on a disk, each behind a gate and acknowledged only once no crash
//! can take it away, and a snapshot of them behind the closed gate.
#![tactic(auto)]

mod append;
mod blocks;
mod closing;
mod header;
mod journal;
mod keep;
mod laying;
mod layout;
mod mark;
mod mount;
mod row;
mod scan;
mod settle;
mod slots;
mod snapshots;
mod types;

pub use blocks::BLOCKS_CONTENT;
pub use book_snapshot::{Dense, Kept, ROW_BYTES};
pub use journal::Journal;
pub use layout::{MAX_SLOTS, NEW_BYTES};
pub use types::{JournalFault, JournalRefused};
