use std::error::Error;
use std::fmt;

/// Why a disk wasn't mounted as a store.
#[derive(Clone, Copy, Debug, PartialEq, Eq)]
pub enum MountError {
    /// The disk has more than 97 bytes and isn't a journal: the byte at this place is the first
    /// that differs from a journal's header, byte 8 being passed over.
    NotJournal { place: u64 },
    /// The row of this number is the first that has no spelling, or isn't lawful behind those
    /// before.
    Damaged { row: u32 },
    /// The disk failed.
    DiskFault,
    /// Memory was refused.
    NoMemory,
}

impl fmt::Display for MountError {
    fn fmt<W: fmt::Write>(&self, f: &mut fmt::Formatter<W>) -> fmt::Result {
        match self {
            MountError::NotJournal { place } => write!(f, "not a journal at {place}"),
            MountError::Damaged { row } => write!(f, "damaged row {row}"),
            MountError::DiskFault => f.write_str("the disk failed"),
            MountError::NoMemory => f.write_str("no memory"),
        }
    }
}

impl Error for MountError {}

/// A disk that wasn't mounted, handed back.
#[derive(Drop)]
pub struct Unmounted<D> {
    pub disk: D,
    pub why: MountError,
}
