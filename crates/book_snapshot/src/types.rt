use std::alloc::Global;
use std::marker::Model;

/// The dense forms of rows, one after the other.
#[derive(Drop)]
pub struct Dense {
    pub(crate) bytes: Vec<u8>,
}

impl Model for Dense {
    ghost use Rattle.std.specs.Prelude.{ℕ, List};

    ghost Value = { List ℕ };

    ghost view = { λ d. d.bytes.items };
}

impl Dense {
    ghost use Rattle.std.specs.Prelude.{◌≡◌, []};

    /// Of no row. It takes no memory.
    pub fn new(alloc: Global) -> Self
        ensures { result ≡ [] }
    {
        Dense {
            bytes: Vec::new(alloc),
        }
    }

    /// Its bytes.
    pub fn as_slice(&self) -> &[u8]
        ensures { result.now ≡ self.now }
    {
        &self.bytes
    }
}

/// What stands at the beginning of dense forms, for rows of `Z` bytes.
#[derive(Clone, Copy, PartialEq, Eq)]
pub enum Piece<const Z: usize> {
    /// A row, and how many bytes its dense form takes.
    Row { row: [u8; Z], taken: usize },
    /// The beginning of a dense form, which goes on after these bytes.
    More,
    /// No dense form begins with these bytes.
    Fault,
}

/// The size of a snapshot.
#[derive(Clone, Copy, PartialEq, Eq)]
pub struct Kept {
    /// How many rows it holds.
    pub rows: u32,
    /// How many bytes their dense forms have.
    pub bytes: u64,
}
