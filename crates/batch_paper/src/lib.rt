//! The paper of a closed batch: all that its verdict rests on, as a text, written from the book.
//! Masses are whole milligrams, days are counted from 1970-01-01.
#![tactic(auto)]

mod goods;
mod lines;
mod packs;
mod papers;
mod picks;
mod types;
mod words;

pub use papers::{paper_of_book, write_paper};
pub use types::{Paper, PaperError};
