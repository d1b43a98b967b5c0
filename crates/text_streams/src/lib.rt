//! Streams of text: an input that is read piece by piece, or whole where it isn't longer than it may
//! be, and short texts that go out.
#![tactic(auto)]

mod reader;
mod whole;
mod writer;

pub use reader::{PIECE, ReadError, Reader};
pub use whole::{Unread, read_whole};
pub use writer::{write_numbered, write_text};
