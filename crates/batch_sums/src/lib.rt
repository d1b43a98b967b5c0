//! The totals of each batch, kept running: packs are added and move between piles, and a corrected
//! tare of a product is worked in by the limits of each group of packs, without a walk over the
//! packs. All masses are whole milligrams.
#![tactic(auto)]

mod chain;
mod pool;
mod sums;
mod types;

pub use pack_groups::{Piles, STEPS_PER_GROUP, Steps, Totals};
pub use sums::BatchSums;
pub use types::{NoMemory, Pack};
