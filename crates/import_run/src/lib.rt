//! A run of an import over a book on a disk: the import is read whole, then its commands are asked
//! and answered one after the other, and the balance comes last.
#![tactic(auto)]

mod import;
mod records;

pub use import::run_import;
