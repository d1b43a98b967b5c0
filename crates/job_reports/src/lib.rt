//! How jobs ended, and the texts of those that came to their end: a lane, and a door of the office.
//! Each is a line that ends in LF.
#![tactic(auto)]

mod append;
mod door_ends;
mod doors;
mod lanes;
mod stop;

pub use door_ends::DoorEnds;
pub use doors::{DOOR_ROOM, door_text};
pub use lanes::{LANE_ROOM, lane_text};
pub use stop::{JobsStop, ServeStop};
