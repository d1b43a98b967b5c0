//! The bytes of a book's file beside the disk: whether a file may become a book, what is taken of
//! the file of a hall that runs, and whether slots hold the rows of a snapshot.
//!
//! Promised: a file counts as one that a book may be made of only where it is empty or holds a
//! beginning of the header and zeros; of a running book all open rows but the last are taken, and
//! each of them is one that stays (`live_rows_stay`); a slot counts as the same only where the
//! content begins with its dense form, and as another only where it doesn't.
#![tactic(auto)]

mod begin;
mod compare;
mod law;
mod live;

pub use begin::is_unbegun;
pub use compare::{Compared, compare_slots};
pub use law::live_rows_stay;
pub use live::{clear_mark, has_header, live_count};
