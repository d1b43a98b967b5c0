use book_snapshot::Kept;
use disk_core::Failed;
use std::error::Error;
use std::fmt;

/// Why a disk wasn't mounted.
#[derive(Clone, Copy, Debug, PartialEq, Eq)]
pub enum JournalFault {
    /// The disk failed.
    Failed,
    /// The disk has more than 97 bytes and isn't a journal: the byte at this place is the first
    /// that differs from a journal's header, byte 8 being passed over.
    NotJournal { place: u64 },
}

impl From<Failed> for JournalFault {
    ghost use Rattle.std.specs.Prelude.{◌≡◌};
    ghost use Rattle.book_journal.specs.declared.types.JournalFault.TheVariants.{Failed};

    ghost from_gives = { λ _ fault. fault ≡ Failed };

    fn from(_: Failed) -> Self {
        JournalFault::Failed
    }
}

impl fmt::Display for JournalFault {
    fn fmt<W: fmt::Write>(&self, f: &mut fmt::Formatter<W>) -> fmt::Result {
        match self {
            JournalFault::Failed => f.write_str("the disk failed"),
            JournalFault::NotJournal { place } => write!(f, "not a journal at {place}"),
        }
    }
}

impl Error for JournalFault {}

/// A disk that wasn't mounted, handed back.
#[derive(Drop)]
pub struct JournalRefused<D> {
    pub disk: D,
    pub why: JournalFault,
}

// What was found on a disk: how many rows, whether its mark is set, and the snapshot that fits.
#[derive(Clone, Copy)]
pub(crate) struct Found {
    pub(crate) count: u32,
    pub(crate) marked: bool,
    pub(crate) kept: Option<Kept>,
}
