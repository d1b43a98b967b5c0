//! The register of packs: a table of CSV with one record for each reading.
#![tactic(auto)]

mod cells;
mod list;
mod table;
mod writer;

pub use list::PackList;
pub use table::{NoMemory, register};
pub use writer::RegisterWriter;
