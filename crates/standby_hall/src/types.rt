use book_words::Entry;
use std::error::Error;
use std::fmt;
use store_runs::{Offer, Stop, bad_row};

/// What a shipment says before its rows.
#[derive(Clone, Copy, PartialEq, Eq)]
pub struct ShipHead {
    /// How many rows the book has.
    pub all: u32,
    /// How many of them, the first ones, were passed over.
    pub passed: u32,
}

/// Why a store doesn't follow a shipment, with all that is known of it.
#[derive(Clone, Copy)]
pub enum FollowStop {
    /// The input failed.
    ReadFault,
    /// The input doesn't begin with the head of a shipment.
    Head,
    /// Rows before those that came are lacking: this one is the first.
    Gap { row: u32 },
    /// This row is the first that is cut, spells no entry, isn't lawful, or isn't the store's.
    Row { row: u32 },
    /// Something stands behind the last row; the book that was shipped has so many.
    Extra { all: u32 },
    /// The disk failed as it was offered the row of this entry.
    DiskFault { entry: Entry },
    /// Memory was refused.
    NoMemory,
}

/// Why a store doesn't follow a shipment.
#[derive(Clone, Copy, Debug, PartialEq, Eq)]
pub enum FollowError {
    /// The input failed.
    ReadFault,
    /// The input doesn't begin with the head of a shipment.
    Head,
    /// Rows before those that came are lacking: this one is the first.
    Gap { row: u32 },
    /// This row is the first that is cut, spells no entry, isn't lawful, or isn't the store's.
    Row { row: u32 },
    /// Something stands behind the last row.
    Extra,
    /// The disk failed: the row that it was offered isn't in the book.
    DiskFault,
    /// Memory was refused.
    NoMemory,
}

impl From<FollowStop> for FollowError {
    ghost use Rattle.std.specs.Prelude.{◌≡◌};
    ghost use Rattle.standby_hall.specs.Following.{error_of};

    ghost from_gives = { λ stop error. error ≡ error_of stop };

    fn from(stop: FollowStop) -> FollowError {
        match stop {
            FollowStop::ReadFault => FollowError::ReadFault,
            FollowStop::Head => FollowError::Head,
            FollowStop::Gap { row } => FollowError::Gap { row },
            FollowStop::Row { row } => FollowError::Row { row },
            FollowStop::Extra { .. } => FollowError::Extra,
            FollowStop::DiskFault { .. } => FollowError::DiskFault,
            FollowStop::NoMemory => FollowError::NoMemory,
        }
    }
}

impl From<FollowStop> for Stop {
    ghost use Rattle.std.specs.Prelude.{◌≡◌};
    ghost use Rattle.standby_hall.specs.Following.{shipment_stop};

    ghost from_gives = { λ why stop. stop ≡ shipment_stop why };

    fn from(why: FollowStop) -> Stop {
        match why {
            FollowStop::ReadFault => Stop::ReadFault,
            FollowStop::Head => bad_row(0),
            FollowStop::Gap { row } | FollowStop::Row { row } => bad_row(row),
            FollowStop::Extra { all } => Stop::BadLine(u64::from(all) + 1),
            FollowStop::DiskFault { entry } => Stop::DiskFault(Offer::Row(entry)),
            FollowStop::NoMemory => Stop::NoMemory,
        }
    }
}

impl fmt::Display for FollowError {
    fn fmt<W: fmt::Write>(&self, f: &mut fmt::Formatter<W>) -> fmt::Result {
        match self {
            FollowError::ReadFault => f.write_str("the input failed"),
            FollowError::Head => f.write_str("not a shipment"),
            FollowError::Gap { row } => write!(f, "row {row} is lacking"),
            FollowError::Row { row } => write!(f, "bad row {row}"),
            FollowError::Extra => f.write_str("bytes behind the last row"),
            FollowError::DiskFault => f.write_str("the disk failed"),
            FollowError::NoMemory => f.write_str("no memory"),
        }
    }
}

impl Error for FollowError {}
