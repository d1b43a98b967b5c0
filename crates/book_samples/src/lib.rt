//! The samples that were drawn from the batches of the hall, and what was measured of their packs.
//! All masses are whole milligrams.
#![tactic(auto)]

mod drawing;
mod places;
mod samples;
mod types;

pub use drawing::{draw_first, draw_second};
pub use samples::Samples;
pub use types::{Measured, Sample};
