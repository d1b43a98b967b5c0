//! Imports: a table of CSV whose records are acts, as a script asks them, read one after the other.
#![tactic(auto)]

mod fields;
mod import;
mod records;
mod script_line;
mod types;

pub use import::ImportReader;
pub use types::{ImportError, MAX_IMPORT, MAX_RECORDS, NoMemory};
