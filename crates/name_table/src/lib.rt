//! Names that are all different, each with its number: the place in the order in which they were
//! entered. One is found in the logarithm of how many there are, whatever they are: nothing is
//! hashed.
#![tactic(auto)]

mod search;
mod table;

pub use table::NameTable;
