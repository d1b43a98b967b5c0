//! What the book looks up by name, lane, day or desk: its products and batches, the lanes, the
//! newest day and the newest row of each desk. Nothing is looked for along the list of entries.
#![tactic(auto)]

mod index;
mod types;

pub use index::Index;
pub use types::{BatchTerms, NoMemory, ProductTerms, States};
