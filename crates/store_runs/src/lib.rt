//! Runs over a store: how one stops, what it makes of the book and of its disk, and the carrying of
//! the entries of another book into it.
#![tactic(auto)]

mod carrying;
mod end;
mod snapshot;
mod stop;

pub use book_store::{Book, OneCaller};
pub use carrying::{bad_row, carry_entry};
pub use end::RunEnd;
pub use snapshot::keep_snapshot;
pub use stop::{Offer, Stop};
