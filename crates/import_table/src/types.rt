use std::alloc::AllocError;
use std::fmt;

/// The most bytes of an import.
pub const MAX_IMPORT: usize = 16_777_216;

/// The most records of an import behind its header.
pub const MAX_RECORDS: u32 = 1_000_000;

/// The number of the last record that an import may have, where the header is 1.
pub const LAST_RECORD: u32 = MAX_RECORDS + 1;

/// Memory that was wanted could not be had.
pub type NoMemory = AllocError;

/// Why an import is read no further.
#[derive(Clone, Copy, PartialEq, Eq)]
pub enum ImportError {
    /// The record of this number isn't an act that a line of a script asks, or isn't the header where
    /// it is 1; 0 where the import has more than `MAX_IMPORT` bytes.
    Bad { record: u32 },
    /// It has more than `MAX_RECORDS` records behind its header.
    TooMany,
    /// Memory was wanted and could not be had.
    NoMemory,
}

impl fmt::Display for ImportError {
    fn fmt<W: fmt::Write>(&self, f: &mut fmt::Formatter<W>) -> fmt::Result {
        match self {
            ImportError::Bad { record } => write!(f, "record {record} of the import is bad"),
            ImportError::TooMany => write!(f, "the import has more than {MAX_RECORDS} records"),
            ImportError::NoMemory => write!(f, "no memory for the import"),
        }
    }
}

impl From<AllocError> for ImportError {
    ghost use Rattle.std.specs.Prelude.{◌≡◌};
    ghost use Rattle.import_table.specs.declared.types.ImportError.TheVariants.{NoMemory};

    ghost from_gives = { λ _ error. error ≡ NoMemory };

    fn from(_: AllocError) -> ImportError {
        ImportError::NoMemory
    }
}

/// How far an import was read.
#[derive(Clone, Copy, PartialEq, Eq)]
pub enum Progress {
    /// There may be more.
    Reading,
    /// It was read to its end.
    AtEnd,
    /// It is read no further.
    Stopped(ImportError),
}
