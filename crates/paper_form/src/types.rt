use annex_tables::Mode;
use book_words::{Name, Unit, Verdict};
use pack_judge::DatedTare;
use std::alloc::AllocError;

/// The most bytes of a paper: more than thirty times those of the longest that is written.
pub const MAX_PAPER: usize = 16_777_216;

/// What a paper says of a batch and its goods.
#[derive(Clone, Copy, PartialEq, Eq)]
pub struct Goods {
    pub batch: Name,
    pub product: Name,
    /// The nominal quantity: mg or microlitres, by its unit.
    pub nominal: i64,
    pub unit: Unit,
    /// In mg a litre; a million for goods by mass.
    pub density: u32,
    /// The row of the closing.
    pub row: u32,
}

/// A pack of the population.
#[derive(Clone, Copy, PartialEq, Eq)]
pub struct Pack {
    /// The row of its weighing.
    pub number: u32,
    /// The day of its weighing, since 1970-01-01.
    pub day: i32,
    /// In mg.
    pub gross: i64,
}

/// What the samples are drawn by.
#[derive(Clone, Copy, PartialEq, Eq)]
pub struct Draw {
    /// Whether the packs are kept or destroyed.
    pub mode: Mode,
    /// The word of the first sample.
    pub word: u64,
}

/// What a pack weighed in the test, in mg.
#[derive(Clone, Copy, PartialEq, Eq)]
pub struct Weighed {
    pub gross: i64,
    /// The empty pack; 0 where packs are kept.
    pub empty: i64,
}

/// A pack of a sample, and what it weighed where it was measured.
#[derive(Clone, Copy, PartialEq, Eq)]
pub struct Pick {
    pub pack: u32,
    pub weighed: Option<Weighed>,
}

/// What a line of a paper says.
#[derive(Clone, Copy, PartialEq, Eq)]
pub enum Line {
    /// `paper 1`
    Title,
    /// `batch B product P nominal G unit U density G row N`
    Goods(Goods),
    /// `tare DATE G`
    Tare(DatedTare),
    /// `pack N DATE G`
    Pack(Pack),
    /// `mode MODE word W`
    Mode(Draw),
    /// `first N gross G empty G`
    First(Pick),
    /// `word W`
    Word(u64),
    /// `second N gross G empty G`, or `second N unmeasured`
    Second(Pick),
    /// `verdict VERDICT`
    Verdict(Verdict),
}

/// Which lines may come next in a paper.
#[derive(Clone, Copy, PartialEq, Eq)]
pub enum Stage {
    /// The title.
    Title,
    /// The line of the batch.
    Goods,
    /// Tares; then packs, or the verdict of a batch without any.
    Tares,
    /// Packs; then the mode.
    Packs,
    /// The first sample; then the word of a second one, or the verdict.
    First,
    /// The second sample; then the verdict.
    Second,
    /// None.
    End,
}

/// Why a paper isn't true, with the number of its least line of that kind, from 1. Faults of form
/// come before all of tares, these before all of draws, and a wrong verdict comes last.
#[derive(Clone, Copy, Debug, PartialEq, Eq)]
pub enum PaperFault {
    /// The line isn't the next one of a paper.
    Line { line: u32 },
    /// The day of this pack has no tare, or that of this tare no pack.
    Tare { line: u32 },
    /// This line isn't what the draw by the paper's words asks for.
    Draw { line: u32 },
    /// The verdict isn't that of the paper's own tares, packs and measurements.
    Verdict { line: u32 },
    /// There was no memory for it.
    NoMemory,
}

impl From<AllocError> for PaperFault {
    ghost use Rattle.std.specs.Prelude.{◌≡◌};
    ghost use Rattle.paper_form.specs.declared.types.PaperFault.TheVariants.{NoMemory};

    ghost from_gives = { λ _ fault. fault ≡ NoMemory };

    fn from(_: AllocError) -> PaperFault {
        PaperFault::NoMemory
    }
}
