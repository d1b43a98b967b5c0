//! A scale on a line that isn't to be trusted. It sends its weights, and the batches that they are
//! for, as numbered lines, over connections that may lose them, give them again or cut them; what
//! is taken of them is what it sent, in order and each once.
#![tactic(auto)]

mod acknowledging;
mod hearing;
mod held;
mod items;
mod law;
mod reading;
mod receiver;
mod remote_cell;
mod sender;
mod turns;
mod wire_lines;

pub use items::{Item, Items};
pub use law::{exchange_law, given_law};
pub use receiver::{Heard, Receiver};
pub use remote_cell::RemoteCell;
pub use sender::Sender;
pub use turns::MAX_TURNS;
pub use wire_lines::MAX_LINE;
