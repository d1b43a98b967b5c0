use std::fmt;
use std::fmt::{Display, Formatter};

/// What whoever opened a disk should be told.
#[derive(Clone, Copy, PartialEq, Eq)]
pub enum Notice {
    /// There was no file, and one was made.
    Made,
    /// A running hall has the file open: so many rows of it were read, into memory.
    InUse { rows: u64 },
    /// The file can't be written: it was read into memory.
    Unwritable,
}

impl Display for Notice {
    fn fmt<W: fmt::Write>(&self, f: &mut Formatter<W>) -> fmt::Result {
        match self {
            Notice::Made => f.write_str("there was no book, a new one was made"),
            Notice::InUse { rows } => write!(f, "it is in use; {rows} rows were read"),
            Notice::Unwritable => f.write_str("it can't be written; it was read as it stands"),
        }
    }
}
