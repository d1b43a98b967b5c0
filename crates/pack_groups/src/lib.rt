//! The packs of one batch on one day, which share their tare: a group, its grosses in order, and
//! the sums of a batch that groups add up to. All masses are whole milligrams.
#![tactic(auto)]

mod batch;
mod days;
mod grosses;
mod group;
mod order;
mod steps;
mod types;

pub use batch::{Batch, PileCounts, PileGrosses, PileSums, counts_for_population};
pub use days::{Days, days_of};
pub use grosses::{Gross, Grosses};
pub use group::{Group, Key};
pub use order::{Stretch, find_or_open, next_lesser, stretch_of};
pub use steps::{STEPS_PER_GROUP, Steps};
pub use types::{Piles, Totals};
