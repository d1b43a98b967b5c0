use crate::refusal::Refusal;
use crate::views::{
    LaneView, PackView, PacksView, RowsView, SampleView, Sheet, SummaryView, Verdict,
};
use pack_judge::Signal;

/// The answer to an ask that isn't refused.
#[derive(PartialEq, Eq, Drop)]
pub enum Reply {
    /// The act is recorded in this row.
    Done { row: u32 },
    /// The weighing is recorded in this row, and gets this signal.
    Judged { row: u32, signal: Signal },
    /// The batch is closed in this row, with this verdict.
    Closed { row: u32, verdict: Verdict },
    /// The state of a batch.
    SheetIs(Sheet),
    /// The state of a pack.
    PackIs(PackView),
    /// What a lane does.
    LaneIs(LaneView),
    /// The packs that were drawn from a batch.
    SampleIs(SampleView),
    /// The balance of the whole hall.
    SummaryIs(SummaryView),
    /// Some rows as they were told.
    RowsAre(RowsView),
    /// Some rows to be shipped.
    ShipmentIs(RowsView),
    /// Some packs of a batch.
    PacksAre(PacksView),
}

/// A reply, and the place in the list that it speaks of: the new row, or the length of the list.
#[derive(PartialEq, Eq, Drop)]
pub struct Answered {
    pub at: u32,
    pub reply: Reply,
}

/// A refusal, and the length of the list that it speaks of.
#[derive(Clone, Copy, Debug, PartialEq, Eq)]
pub struct Refused {
    pub at: u32,
    pub refusal: Refusal,
}
