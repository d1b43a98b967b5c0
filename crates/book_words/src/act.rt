use crate::name::Name;
use annex_tables::Mode;
use pack_judge::Signal;

/// What the next act of a lane says of the gate at the reading before it.
#[derive(Clone, Copy, Debug, PartialEq, Eq)]
pub enum Prior {
    /// There is nothing to say.
    Nothing,
    /// The gate opened.
    Opened,
    /// The gate stayed shut.
    Stayed,
    /// It isn't known what the gate did.
    Unknown,
}

/// What has become of a batch since it was opened.
#[derive(Clone, Copy, Debug, PartialEq, Eq)]
pub enum BatchState {
    /// Lanes may weigh packs of it.
    Running,
    /// No more packs of it are weighed.
    Ended,
    /// A sample of it was drawn.
    Drawn,
    /// It has its verdict.
    Closed,
}

/// How the nominal quantity of a product is given (Directive 76/211/EEC, Article 1).
#[derive(Clone, Copy, Debug, PartialEq, Eq)]
pub enum Unit {
    /// By mass, in mg.
    Mass,
    /// By volume, in microlitres.
    Volume,
}

/// What the book is asked to take down. Masses are in mg, days are counted from 1970-01-01.
#[derive(Clone, Copy, Debug, PartialEq, Eq)]
pub enum Act {
    /// The day is now this one.
    NewDay {
        day: i32,
    },
    /// There is a product of this nominal quantity: mg or microlitres, by its unit.
    PutProduct {
        name: Name,
        nominal: i64,
        unit: Unit,
    },
    /// From this day on, until the next day for which there is a tare, the empty package of the
    /// product weighs so much. The nets of readings of these days that were weighed before change
    /// too.
    PutTare {
        product: Name,
        day: i32,
        tare: i64,
    },
    /// A batch of a product begins. Its density is in mg a litre, and 0 where the product is by
    /// mass.
    OpenBatch {
        batch: Name,
        product: Name,
        density: u32,
    },
    /// A lane weighs packs of a batch from now on.
    StartLane {
        lane: u8,
        batch: Name,
    },
    /// A pack was weighed on a lane.
    Weigh {
        lane: u8,
        gross: i64,
        prior: Prior,
    },
    /// A lane stops.
    StopLane {
        lane: u8,
        prior: Prior,
    },
    /// A passed pack, named by the row of its weighing, is taken back.
    Void {
        pack: u32,
    },
    /// No more packs of a batch are weighed.
    EndRun {
        batch: Name,
    },
    /// The first sample of a batch is drawn by a word (Annex II). The packs are kept or destroyed.
    Draw {
        batch: Name,
        mode: Mode,
        word: u64,
    },
    /// A sampled pack was measured: its gross, and the mass of the empty pack where packs are
    /// destroyed.
    Measure {
        pack: u32,
        gross: i64,
        empty: i64,
    },
    /// The second sample of a batch is drawn by a word.
    DrawSecond {
        batch: Name,
        word: u64,
    },
    /// A batch gets its verdict.
    Close {
        batch: Name,
    },
}

/// A question to the book.
#[derive(Clone, Copy, Debug, PartialEq, Eq)]
pub enum Question {
    /// The state of a batch: its piles, its test, its verdict.
    Sheet { batch: Name },
    /// The state of the pack with this number.
    Pack { pack: u32 },
    /// What a lane does.
    Lane { lane: u8 },
    /// The packs that were drawn from a batch.
    Sample { batch: Name },
    /// The balance of the whole hall.
    Summary,
    /// A page of the rows after the first so many, each as it was told.
    Rows { after: u32 },
    /// The same page as a shipment, for a book that follows.
    Shipment { after: u32 },
    /// A page of the packs of a batch whose numbers are above this one.
    Packs { batch: Name, after: u32 },
}

/// What is asked: an act or a question.
#[derive(Clone, Copy, Debug, PartialEq, Eq)]
pub enum Want {
    /// Something to take down.
    Act(Act),
    /// A question.
    Question(Question),
}

/// Something that a desk asks, with the number of its request.
#[derive(Clone, Copy, Debug, PartialEq, Eq)]
pub struct Ask {
    /// The desk, 101 to 164; 0 for the hall's own commands.
    pub desk: u16,
    /// The number of the desk's request, from 1; 0 for the hall's own commands.
    pub request: u32,
    /// What is asked.
    pub want: Want,
}

/// An accepted command: who brought it, and the signal where it is a weighing.
#[derive(Clone, Copy, PartialEq, Eq)]
pub struct Entry {
    /// The caller that brought it: 0 for a script, else the number of a lane or a door.
    pub by: u16,
    /// The desk that asked for it, or 0.
    pub desk: u16,
    /// The number of that desk's request, or 0.
    pub request: u32,
    /// What was recorded.
    pub act: Act,
    /// The signal of a weighing; none for any other act.
    pub signal: Option<Signal>,
}

/// A weighing of the list, with what the entries round it say of it.
#[derive(Clone, Copy, PartialEq, Eq)]
pub struct Reading {
    /// Its place in the list, from 1, which is the number of the pack.
    pub number: u32,
    pub lane: u8,
    /// The gross in mg.
    pub gross: i64,
    /// The signal that was recorded.
    pub signal: Option<Signal>,
    /// The newest day before it.
    pub day: Option<i32>,
    /// The batch for which its lane was started last.
    pub batch: Option<Name>,
    /// What the lane's next act says of the gate, where there is such an act.
    pub next_prior: Option<Prior>,
    /// Whether a later act takes it back.
    pub voided: bool,
}
