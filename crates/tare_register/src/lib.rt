//! The tares of the hall's products: each is dated, and may be corrected by a later one.
#![tactic(auto)]

mod deciding;
mod order;
mod tares;
mod types;

pub use tares::Tares;
pub use types::{NoMemory, ProductTare};
