//! The doors of the office: the requests of the connections that come to a door, each answered by a
//! caller of the book, for every caller and every door.
#![tactic(auto)]

mod buffers;
mod connections;
mod doors;
mod ending;
mod finding;
mod held;
mod laws;
mod leaving;
mod limits;
mod requests;
mod responding;
mod sending;
mod tally;

pub use doors::serve_door;
pub use ending::{DoorEnd, DoorStop};
pub use laws::{cut_law, request_law};
pub use leaving::Leaving;
pub use limits::{MAX_CONNECTIONS, MAX_REQUESTS};
