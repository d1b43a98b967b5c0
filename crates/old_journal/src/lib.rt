//! A journal of version 1, read from a stream that comes in pieces: its rows up to the first slot
//! that is cut or closed. It takes no memory.
#![tactic(auto)]

mod header;
mod reader;
mod slot;
mod types;

pub use reader::{OldJournal, what_follows_leaves_rows};
pub use types::OldPiece;
