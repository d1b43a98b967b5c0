//! Whether the paper of a closed batch is true. It believes nothing but arithmetic: the samples are
//! drawn anew by the paper's words, and the verdict is computed from the paper's own tares, packs
//! and measurements. Masses are whole milligrams, days are counted from 1970-01-01.
#![tactic(auto)]

mod check;
mod contents;
mod draws;
mod finding;
mod keys;
mod sums;
mod tares;
mod verdicts;

pub use check::check_paper;
