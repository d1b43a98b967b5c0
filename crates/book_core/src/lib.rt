//! The batch book: what is asked of it is refused by the first rule that holds, or added to its
//! list of entries and answered.
#![tactic(auto)]

mod book;
mod pending;
mod ready;
mod rows;
mod types;

pub use book::Book;
pub use ready::Ready;
pub use rows::Rows;
pub use types::{BookError, NoMemory, ReplayError, Step};
