//! Plans: the script that prepares a hall, and the batch that each of its lanes is to weigh, or that
//! it changes, read from a document in TOML.
#![tactic(auto)]

mod document;
mod lane_list;
mod lanes;
mod reading;
mod setup;
mod types;
mod values;

pub use lane_list::PlannedLanes;
pub use reading::read_plan;
pub use setup::Setup;
pub use types::{MAX_PLAN, Plan, PlanError, PlannedLane};
