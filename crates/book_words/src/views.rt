use crate::act::{BatchState, Entry, Unit};
use crate::name::Name;
use crate::page::{ActList, PackList};
use annex_tables::Mode;
use pack_judge::{Class, Pile, Signal, Tally};
use sample_draw::Picks;

/// The most packs that are drawn from a batch, in both samples together: twice 80 (Annex II).
pub const MAX_DRAWN: usize = 160;

/// The most rows, or packs, of a page. A response has room for their lines, and they are half of what a book
/// is walked in; at 139 packs a second, two pages are asked each second.
pub const MAX_PAGE: u32 = 128;

/// Which parts of the test of a batch fail.
#[derive(Clone, Copy, Debug, PartialEq, Eq)]
pub struct Fails {
    /// The contents check of Annex II: too many of the measured packs are defective.
    pub contents: bool,
    /// The mean check of Annex II: the mean of the measured packs falls short.
    pub mean: bool,
    /// The packs of the population hold less on average than the nominal quantity.
    pub average: bool,
    /// More than one in forty packs of the population are inadequate or non-standard.
    pub allowance: bool,
    /// A pack of the population is inadequate.
    pub inadequate: bool,
}

/// What is said of a closed batch.
#[derive(Clone, Copy, Debug, PartialEq, Eq)]
pub enum Verdict {
    /// There is no pack in its population.
    Empty,
    /// Each part of the test holds.
    Released,
    /// Some parts fail.
    Withheld(Fails),
}

/// The reference test of a batch: its mode, and how many packs of each sample were drawn, measured
/// and found defective.
#[derive(Clone, Copy, PartialEq, Eq)]
pub struct TestView {
    pub mode: Mode,
    pub first: u32,
    pub measured1: u32,
    pub d1: u32,
    pub second: u32,
    pub measured2: u32,
    pub d2: u32,
}

/// The state of a batch. The nominal quantity and its tolerable negative error are in mg or
/// microlitres, by the unit; the density is in mg a litre, and 0 for a batch by mass; all else is
/// in mg.
#[derive(Clone, Copy, PartialEq, Eq)]
pub struct Sheet {
    pub batch: Name,
    pub product: Name,
    pub nominal: i64,
    pub unit: Unit,
    pub tne: i64,
    pub density: u32,
    pub state: BatchState,
    pub readings: Tally,
    pub passed: Tally,
    pub rejected: Tally,
    pub sampled: Tally,
    pub voided: Tally,
    /// How many packs lie among the passed or the sampled.
    pub population: u32,
    /// The sum of the nets of these.
    pub net: i64,
    /// How many of these are inadequate or non-standard.
    pub nonstandard: u32,
    /// How many of these are inadequate.
    pub inadequate: u32,
    /// Whether some of these are inadequate.
    pub held: bool,
    /// The reference test, once a sample was drawn.
    pub test: Option<TestView>,
    /// The verdict, once the batch is closed.
    pub verdict: Option<Verdict>,
}

/// The state of a pack. Masses are in mg.
#[derive(Clone, Copy, PartialEq, Eq)]
pub struct PackView {
    /// The number of the pack: the row of its weighing.
    pub pack: u32,
    pub batch: Name,
    pub product: Name,
    pub lane: u8,
    /// The day on which it was weighed, since 1970-01-01.
    pub day: i32,
    pub gross: i64,
    /// The gross less the tare of its product and day, as the tares now are.
    pub net: i64,
    pub class: Class,
    pub signal: Signal,
    pub pile: Pile,
}

/// What a lane does: the batch that it weighs, and the number of its unsettled pack.
#[derive(Clone, Copy, PartialEq, Eq)]
pub struct LaneView {
    pub lane: u8,
    pub batch: Option<Name>,
    pub unsettled: Option<u32>,
}

/// The packs that were drawn from a batch, in drawing order.
#[derive(PartialEq, Eq, Drop)]
pub struct SampleView {
    pub batch: Name,
    pub first: Picks,
    /// Empty where no second sample was drawn.
    pub second: Picks,
}

/// The balance of the whole hall: the rows of its list, its readings and the four piles, and how
/// many batches are in each state.
#[derive(Clone, Copy, PartialEq, Eq)]
pub struct SummaryView {
    pub rows: u32,
    pub readings: Tally,
    pub passed: Tally,
    pub rejected: Tally,
    pub sampled: Tally,
    pub voided: Tally,
    pub running: u32,
    pub ended: u32,
    pub drawn: u32,
    pub closed: u32,
}

/// An accepted act as it is told.
#[derive(Clone, Copy, PartialEq, Eq)]
pub struct ActView {
    /// The row of its entry.
    pub row: u32,
    pub entry: Entry,
    /// The verdict that was told, where the act is the closing of a batch.
    pub verdict: Option<Verdict>,
}

/// A page of the list: its rows as they were told, and how many rows stand before them.
#[derive(PartialEq, Eq, Drop)]
pub struct RowsView {
    pub before: u32,
    pub acts: ActList,
}

/// A page of the packs of a batch, in the order of their numbers.
#[derive(PartialEq, Eq, Drop)]
pub struct PacksView {
    pub packs: PackList,
}
