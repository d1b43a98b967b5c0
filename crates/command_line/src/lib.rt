//! The words of the command line: what they ask for.
#![tactic(auto)]

mod asked;
mod given;
mod items;
mod needs;
mod parser;
mod places;
mod table;
mod text;
mod types;
mod values;

pub use asked::{wants, words};
pub use needs::{BookUse, Input, Needs, needs_of};
pub use table::{MAX_DOOR_CONNECTIONS, MAX_PORT};
pub use text::Text;
pub use types::{Command, Wants, WantsError};
