use pack_judge::DatedTare;
use std::alloc::AllocError;

/// Memory was refused.
pub type NoMemory = AllocError;

/// A tare as it was put into the register.
#[derive(Clone, Copy, PartialEq, Eq)]
pub struct ProductTare {
    /// The number of the product.
    pub product: u32,
    /// Its tare from a day on.
    pub dated: DatedTare,
}

/// A day of a product, for which an entry may be meant.
#[derive(Clone, Copy, PartialEq, Eq)]
pub struct ProductDay {
    /// The number of the product.
    pub product: u32,
    /// The day since 1970-01-01.
    pub day: i32,
}
