//! The responses of the office over HTTP: to what the book answers, and to a request whose form is at
//! fault. Lines of the head of a response end in CR LF.
#![tactic(auto)]

mod bodies;
mod heads;
mod replies;
mod types;

pub use replies::{REPLY_ROOM, bad_into, reply_into};
pub use types::{Extra, Head, Media, Status};
