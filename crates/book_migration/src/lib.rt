//! The carrying of a journal of version 1 into the book of a store: each of its rows is compared
//! with the book's, or adopted. It writes no text.
#![tactic(auto)]

mod carrying;
mod migrate;

pub use migrate::{MAX_OLD_READS, migrate_journal};
