//! The paper of a closed batch, written to an output from the book as it stands.
#![tactic(auto)]

mod print;

pub use print::print_paper;
