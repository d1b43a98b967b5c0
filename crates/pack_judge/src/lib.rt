//! What a pack is by the limits of its nominal quantity, the pass or reject signal that it gets,
//! and the tare rule. All masses are whole milligrams, days are counted from 1970-01-01.
#![tactic(auto)]

mod judge;
mod tares;
mod types;

pub use judge::{class, signal};
pub use tares::{DatedTare, Span};
pub use types::{Cause, Class, Pile, Signal, Tally};
