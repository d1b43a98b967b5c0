//! What is in force in a book, in lines: the newest day, the products with their tares, the tares
//! to come, the batches, the lanes, the desks, and the rows.
#![tactic(auto)]

mod making;
mod print;
mod texts;
mod types;

pub use print::print_list;
