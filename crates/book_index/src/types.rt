use book_words::{BatchState, Unit};
use std::alloc::AllocError;

/// Memory was refused.
pub type NoMemory = AllocError;

/// How much a product holds.
#[derive(Clone, Copy, PartialEq, Eq)]
pub struct ProductTerms {
    /// The nominal quantity, in mg or microlitres by its unit.
    pub nominal: i64,
    /// Whether it is told by mass or by volume.
    pub unit: Unit,
}

/// What a batch is of, and what has become of it.
#[derive(Clone, Copy, PartialEq, Eq)]
pub struct BatchTerms {
    /// The number of its product: the place in the order of the products, from 0.
    pub product: u32,
    /// The density in mg a litre, and 0 where the product is by mass.
    pub density: u32,
    pub state: BatchState,
}

/// How many batches are in each state.
#[derive(Clone, Copy, PartialEq, Eq)]
pub struct States {
    pub running: u32,
    pub ended: u32,
    pub drawn: u32,
    pub closed: u32,
}
