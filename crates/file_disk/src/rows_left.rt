//! How many rows a book has left, as they are kept.
use book_journal::ROW_BYTES;
use std::fmt;
use std::fmt::{Display, Formatter};

/// So many rows left are told.
const FEW_ROWS: u64 = 50_000;

/// The last one in so many rows is told.
const LAST_PART: u64 = 100;

/// The gate of a row that counts.
const OPEN: u8 = 1;

/// How many rows a book has left, where that is to be told.
#[derive(Clone, Copy)]
pub(crate) struct Left {
    rows: u64,
    limit: u64,
}

impl Display for Left {
    fn fmt<W: fmt::Write>(&self, f: &mut Formatter<W>) -> fmt::Result {
        match self.rows {
            0 => f.write_str("the book is full: it takes no act, not even a verdict"),
            rows => write!(
                f,
                "{rows} rows are left of {}: a full book takes no act, not even a verdict",
                self.limit
            ),
        }
    }
}

/// The rows of a book of so many at most, as their gates are written.
#[derive(Clone, Copy)]
pub(crate) struct RowsLeft {
    limit: Option<u64>,
    // The row whose gate was opened, and isn't stable yet.
    opened: Option<u64>,
}

impl RowsLeft {
    /// Nothing is told.
    pub fn untold() -> Self {
        RowsLeft {
            limit: None,
            opened: None,
        }
    }

    /// Told of a book of so many rows at most.
    pub fn of(limit: u32) -> Self {
        RowsLeft {
            limit: Some(u64::from(limit)),
            opened: None,
        }
    }

    /// These bytes were written at a place: one that opens the gate of a row makes it count, once it is
    /// stable.
    pub fn wrote(&mut self, place: u64, bytes: &[u8]) {
        let is_gate = place % ROW_BYTES as u64 == 0 && bytes == [OPEN].as_slice();
        if is_gate {
            self.opened = Some(place / ROW_BYTES as u64);
        }
    }

    /// What was written is stable. Tells how many rows are left, where that is to be told.
    pub fn synced(&mut self) -> Option<Left> {
        let limit = self.limit?;
        let row = self.opened.take()?;
        let rows = limit.saturating_sub(row);
        let is_told = rows == 0 || rows == FEW_ROWS || rows == limit / LAST_PART;
        if is_told {
            Some(Left { rows, limit })
        } else {
            None
        }
    }
}
