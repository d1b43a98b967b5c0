//! The book as text: a line for each entry behind a row, written to an output.
#![tactic(auto)]

mod print;
mod sizes;

pub use print::print_acts;
