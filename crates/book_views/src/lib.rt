//! What a batch book says as it stands: sheets and the other views, and the answers to questions.
//! All masses are whole milligrams.
#![tactic(auto)]

mod packs;
mod questions;
mod rows;
mod tallies;
mod views;

pub use questions::look;
pub use rows::view_row;
pub use views::{summarize, view_pack};
