use std::error::Error;
use std::fmt;

/// Why an entry wasn't adopted.
#[derive(Clone, Copy, Debug, PartialEq, Eq)]
pub enum AdoptError {
    /// It isn't lawful behind the list.
    Unlawful,
    /// The disk failed: nothing is acknowledged.
    DiskFault,
    /// Memory was refused: nothing was done.
    NoMemory,
}

impl fmt::Display for AdoptError {
    fn fmt<W: fmt::Write>(&self, f: &mut fmt::Formatter<W>) -> fmt::Result {
        f.write_str(match self {
            AdoptError::Unlawful => "the entry isn't lawful here",
            AdoptError::DiskFault => "the disk failed",
            AdoptError::NoMemory => "no memory",
        })
    }
}

impl Error for AdoptError {}

/// Why no snapshot was kept.
#[derive(Clone, Copy, Debug, PartialEq, Eq)]
pub enum RestError {
    /// The disk failed.
    DiskFault,
    /// Memory was refused: nothing was done.
    NoMemory,
}

impl fmt::Display for RestError {
    fn fmt<W: fmt::Write>(&self, f: &mut fmt::Formatter<W>) -> fmt::Result {
        f.write_str(match self {
            RestError::DiskFault => "the disk failed",
            RestError::NoMemory => "no memory",
        })
    }
}

impl Error for RestError {}
