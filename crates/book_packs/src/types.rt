use annex_tables::Limits;
use book_words::Prior;
use pack_judge::Signal;
use std::alloc::AllocError;

/// Memory was refused.
pub type NoMemory = AllocError;

/// What a weighing finds in its batch: the population as the act leaves it, before its own pack.
#[derive(Clone, Copy, PartialEq, Eq)]
pub struct AtWeighing {
    /// The limits of the batch, in mg.
    pub limits: Limits,
    /// How many packs the population has.
    pub population: u32,
    /// How many of them aren't standard.
    pub nonstandard: u32,
    /// How many of them are inadequate.
    pub inadequate: u32,
}

/// A pack that is weighed on a lane. Its batch is given by its number, masses are in mg.
#[derive(Clone, Copy, PartialEq, Eq)]
pub struct Weighing {
    /// The lane, 1 to 16.
    pub lane: u8,
    /// What the act says of the gate at the lane's reading before it.
    pub prior: Prior,
    /// The number of the pack: that of the row.
    pub number: u32,
    /// The number of the batch for which the lane was started last.
    pub batch: u32,
    /// The newest day, since 1970-01-01.
    pub day: i32,
    /// The gross, in mg.
    pub gross: i64,
    /// The tare of the batch's product on that day, in mg; 0 where there is none.
    pub tare: i64,
    /// The signal that is recorded.
    pub signal: Signal,
}
