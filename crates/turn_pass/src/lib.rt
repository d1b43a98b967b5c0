//! One list that many callers add to. The list itself exists in the proofs alone: what threads
//! share is one word, its length. `BookSeat` lies under the lock of a book and appends; each caller
//! has a `PassSeat`, which has seen a beginning of the list and knows which entries are its own.
//!
//! Under the lock an accepted entry takes `append`, `note`, `meet` and `see`; an answer that
//! appends nothing takes `hear`, `note` and `meet`, and where it is a fault, `fault` before.
//! Afterwards the caller has seen the whole list, and what it had seen before begins it.
#![tactic(auto)]

mod book;
mod closing;
mod entries;
mod pass;
mod rule;
mod steps;
mod turn;

pub use book::BookSeat;
pub use entries::{Appended, Known, Own};
pub use pass::{Note, PassSeat};
pub use turn::{NoMemory, Turn};
