//! Draws of packs from a population, by a word of 64 bits that anyone can follow by hand.
#![tactic(auto)]

mod sample;
mod types;
mod word;

pub use sample::{draw, draw_more};
pub use types::{NoMemory, Picks};
