use pack_judge::Pile;
use std::alloc::AllocError;

/// Memory was refused.
pub type NoMemory = AllocError;

/// A pack that was added, as it now is. All masses are in mg.
#[derive(Clone, Copy, PartialEq, Eq)]
pub struct Pack {
    /// The number that it was added with.
    pub number: u32,
    /// The number of its batch.
    pub batch: u32,
    /// Its day, in days since 1970-01-01.
    pub day: i32,
    /// Its gross, in mg.
    pub gross: i64,
    /// The tare of its batch and day, in mg.
    pub tare: i64,
    /// The pile that it lies in.
    pub pile: Pile,
}

// How a pack is linked with those before it in its batch. A reach is how many packs there were when
// one of a batch had been added: 0 before the first.
#[derive(Clone, Copy)]
pub struct Links {
    // How far the packs before it in its batch reach.
    pub before: u32,
    // How far those do that end with one further back.
    pub skip: u32,
    // How many packs of its batch there are up to it.
    pub rank: u32,
}

// A pack as it is kept. What it shares with the other packs of its batch and day stands in its
// group.
#[derive(Clone, Copy)]
pub struct Held {
    // The number that the pack was added with.
    pub number: u32,
    // The place of its group.
    pub group: u32,
    pub links: Links,
    // In mg.
    pub gross: u32,
    pub pile: Pile,
}
