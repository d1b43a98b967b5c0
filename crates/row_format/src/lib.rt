//! The rows of a journal in bytes: an entry has one spelling for each number, and no bytes spell
//! two entries.
#![tactic(auto)]

mod acts;
mod buffer;
mod codes;
mod fields;
mod places;
mod read;
mod spell;
mod types;
mod write;

pub use book_snapshot::{OLD_ROW_BYTES, ROW_BYTES};
pub use read::{read_old_row, read_row};
pub use types::{OLD_NAME_BYTES, RowFault};
pub use write::{lawful_entries_are_allowed, rows_spell_one_entry, write_row};
