ghost use Rattle.std.specs.Prelude.{◌≡◌};
ghost use Rattle.lane_worker.specs.Endings.{weighing_stop, ask_stop};

use book_words::{AskError, Name, Refused};

/// Why a worker weighs no more packs, while the book answers.
#[derive(Clone, Copy, PartialEq, Eq)]
pub enum WeighingEnd {
    /// The cell gave its end.
    End,
    /// The cell gave the batch of the packs that follow.
    Change { batch: Name, line: u32 },
    /// The cell gave something that is neither a weight nor a batch.
    Bad { line: u32 },
    /// The cell has reached its bound.
    Spent,
    /// The cell failed.
    CellFailed,
    /// The gate failed, and stayed shut.
    GateFailed,
}

/// How the work of a lane came to its end.
#[derive(Clone, Copy, Debug, PartialEq, Eq)]
pub enum LaneStop {
    /// All weights of the cell were weighed.
    Done,
    /// The cell gave the batch of the packs that follow, in a line that isn't a weight.
    Change { batch: Name, line: u32 },
    /// The cell gave its end, and so many weights before it came where the lane had no batch.
    Idle { weights: u32 },
    /// The cell failed.
    Cell,
    /// The gate failed, and stayed shut.
    Gate,
    /// The cell gave something that is neither a weight nor a batch. Lines are counted from 1.
    Bad { line: u32 },
    /// The book refused what was asked.
    Refused(Refused),
    /// The disk failed: what was asked isn't acknowledged.
    DiskFault,
    /// There was no memory for what was asked.
    NoMemory,
    /// The cell has reached its bound.
    Turns,
}

/// The end of the work of a lane: how often the gate opened, and why no more was weighed.
#[derive(Clone, Copy, Debug, PartialEq, Eq)]
pub struct LaneEnd {
    pub opened: u32,
    pub stop: LaneStop,
}

// The stop of a worker that was answered to its last ask.
pub(crate) fn weighing_stop(ending: WeighingEnd) -> LaneStop
    ensures { result ≡ weighing_stop ending }
{
    match ending {
        WeighingEnd::End => LaneStop::Done,
        WeighingEnd::Change { batch, line } => LaneStop::Change { batch, line },
        WeighingEnd::Bad { line } => LaneStop::Bad { line },
        WeighingEnd::Spent => LaneStop::Turns,
        WeighingEnd::CellFailed => LaneStop::Cell,
        WeighingEnd::GateFailed => LaneStop::Gate,
    }
}

// The stop of a worker whose ask wasn't answered.
pub(crate) fn ask_stop(why: AskError) -> LaneStop
    ensures { result ≡ ask_stop why }
{
    match why {
        AskError::Refused(refused) => LaneStop::Refused(refused),
        AskError::DiskFault => LaneStop::DiskFault,
        AskError::NoMemory => LaneStop::NoMemory,
    }
}
