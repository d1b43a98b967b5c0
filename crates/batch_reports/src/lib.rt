//! The texts of what the book answers. Each line ends in LF, masses are printed in grams and days
//! as dates.
#![tactic(auto)]

mod answers;
mod lanes;
mod packs;
mod pages;
mod refusals;
mod samples;
mod sheets;
mod summaries;
mod tallies;

pub use answers::{TEXT_ROOM, answer_text};
pub use book_texts::{
    MAX_VERDICT, append, append_count, append_day, append_grams, append_number, class_word,
    pile_word, push_verdict, signal_words,
};
pub use refusals::{MAX_KEPT, MAX_LEAD, push_kept, push_refused, refusal_text};
