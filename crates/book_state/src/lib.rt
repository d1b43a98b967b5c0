//! The state of the batch book: the list of accepted commands, and beside it what is kept so that
//! no answer walks over the list. All masses are whole milligrams, days are counted from
//! 1970-01-01.
#![tactic(auto)]

mod drawing;
mod drawn;
mod entering;
mod lanes;
mod lookups;
mod packs;
mod samples;
mod state;
mod types;
mod weighed;

pub use book_packs::AtWeighing;
pub use book_samples::Sample;
pub use drawn::Drawn;
pub use lookups::lane_number;
pub use state::State;
pub use types::{KnownPack, LaneNow, NoMemory};
