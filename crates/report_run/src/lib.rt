//! What an inspector takes away of a book: the sheets of its batches with the summary, one sheet,
//! or the register of its packs, each written to an output as the book stands.
#![tactic(auto)]

mod buffer;
mod packs;
mod sheets;

pub use buffer::{BUFFER_BYTES, empty_buffer, flush, make_way};
pub use packs::print_register;
pub use sheets::{print_report, print_sheet};
