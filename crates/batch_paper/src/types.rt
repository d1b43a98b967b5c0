use book_words::BatchState;
use std::alloc::AllocError;
use std::marker::Model;

/// The paper of a batch: its bytes.
#[derive(Drop)]
pub struct Paper {
    bytes: Vec<u8>,
}

impl Model for Paper {
    ghost use Rattle.std.specs.Prelude.{List, ℕ};

    ghost Value = { List ℕ };

    ghost view = { λ p. p.bytes.items };
}

impl Paper {
    ghost use Rattle.std.specs.Prelude.{◌≡◌};

    /// The paper of these bytes.
    pub(crate) fn new(bytes: Vec<u8>) -> Paper
        ensures { result ≡ bytes.items }
    {
        Paper { bytes }
    }

    /// The bytes.
    pub fn as_bytes(&self) -> &[u8]
        ensures { result.now ≡ self.now }
    {
        &self.bytes
    }
}

/// Why a batch has no paper.
#[derive(Clone, Copy, PartialEq, Eq)]
pub enum PaperError {
    /// There is no such batch.
    Unknown,
    /// The batch isn't closed, but in this state.
    NotClosed { state: BatchState },
    /// There was no memory for it.
    NoMemory,
}

impl From<AllocError> for PaperError {
    ghost use Rattle.std.specs.Prelude.{◌≡◌};
    ghost use Rattle.batch_paper.specs.declared.types.PaperError.TheVariants.{NoMemory};

    ghost from_gives = { λ _ error. error ≡ NoMemory };

    fn from(_: AllocError) -> PaperError {
        PaperError::NoMemory
    }
}
