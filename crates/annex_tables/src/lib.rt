//! The tables of Directive 76/211/EEC: tolerable negative errors and the limits that follow (Annex
//! I), and the plans of the reference test (Annex II). All masses are whole milligrams.
#![tactic(auto)]

mod errors;
mod plans;
mod types;

pub use errors::{limits, tne};
pub use plans::plan;
pub use types::{Limits, Mode, NominalRange, Plan, PlanRefusal};

/// The least nominal quantity in mg: Annex I begins at 5 g.
pub const MIN_NOMINAL: i64 = 5_000;

/// The greatest nominal quantity in mg: Annex I ends at 10 kg.
pub const MAX_NOMINAL: i64 = 10_000_000;

/// The most packs in the population of a batch: this project's own limit, on every batch.
pub const MAX_POPULATION: u32 = 10_000;
