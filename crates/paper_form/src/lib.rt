//! The form of the paper of a closed batch: what it says, as data and as text, and what the lines
//! of a text say. The text of data within the limits reads back as these data. Masses are whole
//! milligrams, days are counted from 1970-01-01.
#![tactic(auto)]

mod fields;
mod goods;
mod lines;
mod paper;
mod parts;
mod picks;
mod reading;
mod types;
mod values;

pub use paper::read_paper;
pub use reading::Paper;
pub use types::{Draw, Goods, Line, MAX_PAPER, Pack, PaperFault, Pick, Stage, Weighed};
