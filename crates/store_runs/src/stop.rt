use book_words::{Ask, Entry};
use text_streams::ReadError;

/// What a disk was offered as it failed.
#[derive(Clone, Copy)]
pub enum Offer {
    /// A snapshot of the book, and so no row.
    Snapshot,
    /// The row that this ask adds, which the caller `by` asked.
    Asked { by: u16, ask: Ask },
    /// This row of another book.
    Row(Entry),
}

/// How a run over a store stopped.
#[derive(Clone, Copy)]
pub enum Stop {
    /// It was done.
    Finished,
    /// The line of this number is outside the grammar, or the row of this number can't be carried.
    BadLine(u64),
    /// The input failed.
    ReadFault,
    /// The output failed.
    WriteFault,
    /// The disk failed as it was offered this.
    DiskFault(Offer),
    /// There was no memory.
    NoMemory,
    /// The reads that it may make were made, and the end wasn't seen.
    Spent,
}

impl From<ReadError> for Stop {
    ghost use Rattle.std.specs.Prelude.{◌≡◌};
    ghost use Rattle.store_runs.specs.Stops.{stop_of};

    ghost from_gives = { λ error stop. stop ≡ stop_of error };

    fn from(error: ReadError) -> Stop {
        match error {
            ReadError::Failed => Stop::ReadFault,
            ReadError::Spent => Stop::Spent,
        }
    }
}
