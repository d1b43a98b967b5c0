//! The lines of a script: the bytes of a line in, a command out. It takes no memory.
#![tactic(auto)]

mod acts;
mod command;
mod feed;
mod fields;
mod lines;
mod optional;
mod questions;
mod verbs;
mod words;
mod work;

pub use command::{Allowed, Command, Line, Verb};
pub use feed::{Feed, TooLong, split_line};
pub use lines::{MAX_LINE, read_ended_line, read_last_line};
