use book_words::Name;
use pack_judge::{Pile, Signal};
use std::alloc::AllocError;

/// Memory was refused.
pub type NoMemory = AllocError;

/// A lane as it stands. One look at it serves what a weighing is checked by, its signal and its
/// entering.
#[derive(Clone, Copy, PartialEq, Eq)]
pub struct LaneNow {
    /// The number of the batch that it has, by the order of opening.
    pub batch: Option<u32>,
    /// The tare of that batch on the newest day, in mg.
    pub tare: Option<i64>,
    /// The row of its unsettled pack.
    pub unsettled: Option<u32>,
}

/// What is known of a pack. Masses are in mg.
#[derive(Clone, Copy, PartialEq, Eq)]
pub struct KnownPack {
    pub batch: Name,
    pub lane: u8,
    /// The day on which it was weighed, since 1970-01-01.
    pub day: i32,
    pub gross: i64,
    /// The tare of its product and day, as the tares now are.
    pub tare: i64,
    pub signal: Signal,
    pub pile: Pile,
}
