use std::alloc::AllocError;
use std::fmt::{Display, Formatter};
use std::fs::TryLockError;
use std::io::ErrorKind;
use std::{fmt, io};

/// Why the file of a disk isn't open.
#[derive(Drop)]
pub enum OpenError {
    /// Another hall has it open.
    Held,
    /// What stands there is no regular file, as a folder.
    NotAFile,
    /// It has some bytes and isn't a book, nor the beginning of one.
    NotABook,
    /// The path is a link to a file that isn't there.
    LeadsNowhere,
    /// The slot of this row holds something else than the snapshot beside it.
    Differs { row: u32 },
    /// The system says why.
    System(io::Error),
}

impl OpenError {
    /// Whether there was no memory to open the file.
    pub fn lacks_memory(&self) -> bool {
        self.is_of(ErrorKind::OutOfMemory)
    }

    // Whether the system gives this kind of reason.
    pub(crate) fn is_of(&self, kind: ErrorKind) -> bool {
        match self {
            OpenError::System(error) => error.kind() == kind,
            _ => false,
        }
    }
}

impl Display for OpenError {
    fn fmt<W: fmt::Write>(&self, f: &mut Formatter<W>) -> fmt::Result {
        match self {
            OpenError::Held => f.write_str("another hall has it open"),
            OpenError::NotAFile => f.write_str("it is no file"),
            OpenError::NotABook => f.write_str("it isn't a book"),
            OpenError::LeadsNowhere => f.write_str("it is a link to a file that isn't there"),
            OpenError::Differs { row } => write!(
                f,
                "row {row} differs from its snapshot; `hall ship --book OLD | hall follow --book NEW` \
                 makes a book of the snapshot's rows; then `hall audit` both"
            ),
            OpenError::System(error) => Display::fmt(error, f),
        }
    }
}

impl From<io::Error> for OpenError {
    fn from(error: io::Error) -> Self {
        OpenError::System(error)
    }
}

impl From<AllocError> for OpenError {
    fn from(_: AllocError) -> Self {
        OpenError::System(ErrorKind::OutOfMemory.into())
    }
}

impl From<TryLockError> for OpenError {
    fn from(error: TryLockError) -> Self {
        match error {
            TryLockError::WouldBlock => OpenError::Held,
            TryLockError::Error(error) => OpenError::System(error),
        }
    }
}
