//! A list that is kept in a balanced tree: it takes an item at any place, and gives one back, in
//! the logarithm of its length. It takes no memory of its own: who inserts hands in a node, and who
//! removes gets one back.
#![tactic(auto)]

mod balance;
mod edits;
mod tree;

pub use balance::{fork, rotate};
pub use edits::{insert, remove};
pub use tree::{Node, Tree};
