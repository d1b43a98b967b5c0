//! What tests make of a hall in memory: copies of lists, words, lanes, doors and disks of which
//! some calls fail, the acts of a batch of rice, and a book with their rows. It has no contracts.
#![tactic(auto)]

mod batches;
mod devices;
mod items;
mod lists;

pub use batches::{MARCH_3, MemoryCaller, enter, enter_acts, open_book, rice_acts};
pub use devices::{MemoryLane, disk_of, door_of, doors_of, lane_of, lanes_of};
pub use items::CellItem;
pub use lists::{copy, words_of};
