//! The words of the book and the pieces of its texts, appended to a buffer with room. Masses are
//! printed in grams and days as dates.
#![tactic(auto)]

mod pieces;
mod verdicts;
mod words;

pub use pieces::{
    MAX_LABEL, MAX_NAMED, MAX_NUMBERED, MAX_WEIGHED, MAX_WORD, append, append_count, append_day,
    append_grams, append_named, append_number, append_numbered, append_weighed, append_word,
};
pub use verdicts::{MAX_VERDICT, push_verdict};
pub use words::{MAX_WORDS, class_word, mode_word, pile_word, signal_words, state_word, unit_word};
