//! The book on a disk: an entry is written down and stable before it is in the book.
#![tactic(auto)]

mod adopt;
mod ask;
mod enter;
mod one_caller;
mod rest;
mod store;
mod types;

pub use book_core::Book;
pub use one_caller::OneCaller;
pub use store::Store;
pub use types::{AdoptError, RestError};
