ghost use Rattle.std.specs.Prelude.{◌≡◌, ◌≤◌, length};
ghost use Rattle.book_words.specs.Numbers.{refusal_name, refusal_number};

use crate::act::BatchState;
use crate::name::Name;
use pack_judge::Pile;

/// The most bytes of the name of a refusal.
pub const MAX_REFUSAL_NAME: usize = 15;

/// Why something that is asked isn't done. Of all that hold, the answer is the one with the least
/// number.
#[derive(Clone, Copy, Debug, PartialEq, Eq)]
pub enum Refusal {
    /// The desk isn't 0 or 101 to 164; or it is 0 and the request isn't; or a lane's act has a
    /// desk.
    DeskNumber,
    /// The desk's request is 0, or before its last one.
    RequestOld { last: u32 },
    /// The desk's last request, which was recorded in this row, was another act.
    RequestReused { row: u32 },
    /// The desk's request isn't the one after its last one.
    RequestGap { last: u32 },
    /// The list has as many rows as it may have, or more.
    BookFull { limit: u32 },
    /// No day is set yet.
    DayUnset,
    /// The new day is before the newest one.
    DayBack { last: i32 },
    /// There is a product of that name already.
    ProductKnown,
    /// There is no product of that name.
    ProductUnknown,
    /// The new name isn't 1 to 32 letters, digits, `-`, `_` or `.` of ASCII, the first a letter or
    /// digit.
    NameShape,
    /// The nominal quantity isn't 5 g to 10 kg, or 5 mL to 10 L.
    NominalRange,
    /// The day isn't 1970-01-01 to 9999-12-31.
    DayRange,
    /// There is a batch of that name already.
    BatchKnown,
    /// There is no batch of that name.
    BatchUnknown,
    /// The state of the batch doesn't allow the act.
    BatchState { state: BatchState },
    /// The lane isn't 1 to 16.
    LaneNumber,
    /// The lane has a batch.
    LaneBusy { batch: Name },
    /// The lane has no batch.
    LaneIdle,
    /// The batch's product has no tare on the newest day.
    NoTare { product: Name },
    /// The gross isn't 0 to 30 kg.
    GrossRange,
    /// Where `wanted`, the lane has an unsettled reading and the act doesn't say what the gate did;
    /// else the act says it and there is none.
    PriorWrong { wanted: bool },
    /// This lane, the least such, has the batch.
    LanesRunning { lane: u8 },
    /// The tare or the mass of the empty pack isn't 0 to 5 kg, or a pack that is kept has an empty
    /// mass.
    TareRange,
    /// There is no pack of that number.
    PackUnknown,
    /// The pack lies in a pile that the act doesn't allow: a void wants a passed pack, a
    /// measurement a sampled one.
    PackPile { pile: Pile },
    /// The pack is the unsettled reading of this lane.
    Unsettled { lane: u8 },
    /// The batch has no pack in its population.
    BatchEmpty,
    /// The batch has too few packs, this many, for the destructive test.
    ModeSmall { n: u32 },
    /// No first sample was drawn.
    NotDrawn,
    /// The pack was measured, with this gross in mg.
    MeasuredAlready { value: i64 },
    /// The first sample, with this many defective packs so far, needs no second one, or has one.
    SecondNotNeeded { d1: u32 },
    /// This pack, the first such in drawing order, has to be measured first.
    Unmeasured { pack: u32 },
    /// The first sample, with this many defective packs, wants a second one.
    SecondNeeded { d1: u32 },
    /// The tare would change a net of this closed batch, the first such in order of opening.
    TareFrozen { batch: Name },
    /// The density isn't 500 to 2000 g a litre for goods by volume, or isn't 0 for goods by mass.
    DensityRange,
}

impl Refusal {
    /// The number of the refusal.
    pub fn number(&self) -> u8
        ensures { result ≡ refusal_number self.now }
    {
        match self {
            Refusal::DeskNumber => 1,
            Refusal::RequestOld { .. } => 2,
            Refusal::RequestReused { .. } => 3,
            Refusal::RequestGap { .. } => 4,
            Refusal::BookFull { .. } => 5,
            Refusal::DayUnset => 6,
            Refusal::DayBack { .. } => 7,
            Refusal::ProductKnown => 8,
            Refusal::ProductUnknown => 9,
            Refusal::NameShape => 10,
            Refusal::NominalRange => 11,
            Refusal::DayRange => 12,
            Refusal::BatchKnown => 13,
            Refusal::BatchUnknown => 14,
            Refusal::BatchState { .. } => 15,
            Refusal::LaneNumber => 16,
            Refusal::LaneBusy { .. } => 17,
            Refusal::LaneIdle => 18,
            Refusal::NoTare { .. } => 19,
            Refusal::GrossRange => 20,
            Refusal::PriorWrong { .. } => 21,
            Refusal::LanesRunning { .. } => 22,
            Refusal::TareRange => 23,
            Refusal::PackUnknown => 24,
            Refusal::PackPile { .. } => 25,
            Refusal::Unsettled { .. } => 26,
            Refusal::BatchEmpty => 27,
            Refusal::ModeSmall { .. } => 28,
            Refusal::NotDrawn => 29,
            Refusal::MeasuredAlready { .. } => 30,
            Refusal::SecondNotNeeded { .. } => 31,
            Refusal::Unmeasured { .. } => 32,
            Refusal::SecondNeeded { .. } => 33,
            Refusal::TareFrozen { .. } => 34,
            Refusal::DensityRange => 35,
        }
    }

    /// The name of the refusal, as it is printed.
    pub fn name(&self) -> &'static str
        ensures text { result.now ≡ refusal_name self.now }
        ensures short { length result.now ≤ MAX_REFUSAL_NAME }
    {
        match self {
            Refusal::DeskNumber => "DeskNumber",
            Refusal::RequestOld { .. } => "RequestOld",
            Refusal::RequestReused { .. } => "RequestReused",
            Refusal::RequestGap { .. } => "RequestGap",
            Refusal::BookFull { .. } => "BookFull",
            Refusal::DayUnset => "DayUnset",
            Refusal::DayBack { .. } => "DayBack",
            Refusal::ProductKnown => "ProductKnown",
            Refusal::ProductUnknown => "ProductUnknown",
            Refusal::NameShape => "NameShape",
            Refusal::NominalRange => "NominalRange",
            Refusal::DayRange => "DayRange",
            Refusal::BatchKnown => "BatchKnown",
            Refusal::BatchUnknown => "BatchUnknown",
            Refusal::BatchState { .. } => "BatchState",
            Refusal::LaneNumber => "LaneNumber",
            Refusal::LaneBusy { .. } => "LaneBusy",
            Refusal::LaneIdle => "LaneIdle",
            Refusal::NoTare { .. } => "NoTare",
            Refusal::GrossRange => "GrossRange",
            Refusal::PriorWrong { .. } => "PriorWrong",
            Refusal::LanesRunning { .. } => "LanesRunning",
            Refusal::TareRange => "TareRange",
            Refusal::PackUnknown => "PackUnknown",
            Refusal::PackPile { .. } => "PackPile",
            Refusal::Unsettled { .. } => "Unsettled",
            Refusal::BatchEmpty => "BatchEmpty",
            Refusal::ModeSmall { .. } => "ModeSmall",
            Refusal::NotDrawn => "NotDrawn",
            Refusal::MeasuredAlready { .. } => "MeasuredAlready",
            Refusal::SecondNotNeeded { .. } => "SecondNotNeeded",
            Refusal::Unmeasured { .. } => "Unmeasured",
            Refusal::SecondNeeded { .. } => "SecondNeeded",
            Refusal::TareFrozen { .. } => "TareFrozen",
            Refusal::DensityRange => "DensityRange",
        }
    }
}
