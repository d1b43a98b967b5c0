use std::error::Error;
use std::fmt;

/// The most bytes of a name in a journal of version 1.
pub const OLD_NAME_BYTES: usize = 16;

/// The bytes spell no entry for their number.
#[derive(Clone, Copy, Debug, PartialEq, Eq)]
pub struct RowFault {
    /// The first place whose byte no spelling has after the bytes before it.
    pub place: usize,
}

impl fmt::Display for RowFault {
    fn fmt<W: fmt::Write>(&self, f: &mut fmt::Formatter<W>) -> fmt::Result {
        write!(f, "the byte at place {} is wrong", self.place)
    }
}

impl Error for RowFault {}
