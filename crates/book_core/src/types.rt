use crate::ready::Ready;
use book_words::{Answered, AskError, Refused};
use std::alloc::AllocError;

/// Memory was refused.
pub type NoMemory = AllocError;

/// What making an act ready gives.
#[derive(Drop)]
pub enum Step {
    /// The act is lawful, and there is room for it.
    New(Ready),
    /// The act repeats the newest one of its desk, which was answered so.
    Known(Answered),
}

/// Why a book doesn't answer as was asked.
#[derive(Clone, Copy, PartialEq, Eq)]
pub enum BookError {
    /// The act is refused.
    Refused(Refused),
    /// Memory was refused.
    NoMemory,
}

impl From<BookError> for AskError {
    ghost use Rattle.std.specs.Prelude.{◌≡◌};
    ghost use Rattle.book_core.specs.AskErrors.{ask_error};

    ghost from_gives = { λ why error. error ≡ ask_error why };

    fn from(why: BookError) -> Self {
        match why {
            BookError::Refused(refused) => AskError::Refused(refused),
            BookError::NoMemory => AskError::NoMemory,
        }
    }
}

/// Why an entry isn't taken as it stands.
#[derive(Clone, Copy, PartialEq, Eq)]
pub enum ReplayError {
    /// It isn't lawful after the list.
    Unlawful,
    /// Memory was refused.
    NoMemory,
}
