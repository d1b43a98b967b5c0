use annex_tables::Mode;
use book_words::{Name, Prior, Unit};

/// A command of a script. Where its line names no desk, desk and request are 0.
#[derive(Clone, Copy, PartialEq, Eq)]
pub struct Command {
    pub desk: u16,
    pub request: u32,
    pub verb: Verb,
}

/// What a command wants done or asks. Masses are in mg, days are counted from 1970-01-01, packs are
/// named by the rows of their weighings.
#[derive(Clone, Copy, PartialEq, Eq)]
pub enum Verb {
    /// `day DATE`
    Day {
        day: i32,
    },
    /// `product NAME GRAMS`, here in mg; `product NAME AMOUNT ml`, here in microlitres.
    Product {
        name: Name,
        nominal: i64,
        unit: Unit,
    },
    /// `tare NAME DATE GRAMS`
    Tare {
        product: Name,
        day: i32,
        tare: i64,
    },
    /// `open BATCH NAME DENSITY`, here in mg a litre; without a density it is 0.
    Open {
        batch: Name,
        product: Name,
        density: u32,
    },
    /// `start LANE BATCH`
    Start {
        lane: u8,
        batch: Name,
    },
    /// `weigh LANE GRAMS PRIOR`; without a prior word it follows from the book what the gate did.
    Weigh {
        lane: u8,
        gross: i64,
        prior: Option<Prior>,
    },
    /// `stop LANE PRIOR`; without a prior word it follows from the book what the gate did.
    Stop {
        lane: u8,
        prior: Option<Prior>,
    },
    /// `void PACK`
    Void {
        pack: u32,
    },
    /// `end BATCH`
    End {
        batch: Name,
    },
    /// `draw BATCH MODE WORD`
    Draw {
        batch: Name,
        mode: Mode,
        word: u64,
    },
    /// `measure PACK GRAMS GRAMS`; without the second mass the empty pack's is 0.
    Measure {
        pack: u32,
        gross: i64,
        empty: i64,
    },
    /// `second BATCH WORD`
    Second {
        batch: Name,
        word: u64,
    },
    /// `close BATCH`
    Close {
        batch: Name,
    },
    /// `sheet BATCH`
    Sheet {
        batch: Name,
    },
    /// `pack PACK`
    Pack {
        pack: u32,
    },
    /// `lane LANE`
    Lane {
        lane: u8,
    },
    /// `sample BATCH`
    Sample {
        batch: Name,
    },
    /// `summary`
    Summary,
    /// `acts ROW`
    Acts {
        after: u32,
    },
    /// `packs BATCH PACK`
    Packs {
        batch: Name,
        after: u32,
    },
}

/// What a script may have, beside acts.
#[derive(Clone, Copy, PartialEq, Eq)]
pub struct Allowed {
    /// Whether it may ask questions.
    pub questions: bool,
    /// How many lanes were handed in, at most `MAX_LANE` of `hall_limits`: it may set those of the
    /// numbers 1 to this one to work.
    pub lanes: u8,
}

/// What a line of a script says.
#[derive(Clone, Copy, PartialEq, Eq)]
pub enum Line {
    /// It has no word, or is a comment.
    Nothing,
    /// It is a command.
    Asks(Command),
    /// `work LANE BATCH`: the worker of a lane weighs for a batch.
    Works { lane: u8, batch: Name },
    /// It is outside the grammar: none of these, one that isn't allowed, or longer than a line may
    /// be.
    Bad,
}
