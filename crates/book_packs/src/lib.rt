//! The tares, the packs and the sums of the batch book, kept beside the list of its entries. All
//! masses are whole milligrams, days are counted from 1970-01-01.
#![tactic(auto)]

mod densities;
mod packs;
mod settling;
mod types;

pub use densities::limits_by_density;
pub use packs::Packs;
pub use types::{AtWeighing, NoMemory, Weighing};
