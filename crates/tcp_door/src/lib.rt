//! A door over TCP: it listens on 127.0.0.1, and serves one connection after another.
//!
//! Promised: each call that fails counts one fault; a door that doesn't listen fails at each call;
//! it serves as many connections as were asked for and no more; where no connection is present a
//! read gives nothing and a write fails; and what becomes of a client that is silent for so long
//! (`Manners::patience`).
//!
//! Trusted: the system's calls, that they listen, accept, read, write, wait and tell the time as
//! they say; and that the door asks its manners of the time that has passed. A link tells no bytes,
//! so no clause speaks of what was said there.
#![tactic(auto)]

mod accepting;
mod admission;
mod entrance;
mod guests;
mod leavers;
mod links;
mod manners;
mod moments;
mod openings;
mod tcp_door;

pub use manners::{Manners, Patience};
pub use openings::Opening;
pub use tcp_door::TcpDoor;
