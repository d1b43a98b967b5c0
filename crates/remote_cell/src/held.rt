use crate::wire_lines::MAX_LINE;
use std::marker::Model;

/// The most bytes of a line that are read: one more has no LF, and is no line.
pub(crate) const MAX_HELD: usize = MAX_LINE + 1;

/// The bytes of a line that were read.
#[derive(Drop)]
pub(crate) struct Held {
    bytes: [u8; MAX_HELD],
    count: usize,
}

impl Model for Held {
    ghost use Rattle.std.specs.Prelude.{List, ℕ, ◌≤◌, take};
    ghost use Rattle.remote_cell.specs.declared.held.TheConstants.{MAX_HELD};

    ghost Value = { List ℕ };

    ghost view = { λ h. take h.count h.bytes };

    ghost invariant = { λ h. h.count ≤ MAX_HELD };
}

impl Held {
    ghost use Rattle.std.specs.Prelude.{◌≡◌, ◌==◌, ◌<◌, [], ◌∷◌, ◌++◌, length};
    ghost use Rattle.remote_cell.specs.declared.held.TheConstants.{MAX_HELD};

    /// No bytes.
    pub fn new() -> Self
        ensures { result ≡ [] }
    {
        Held {
            bytes: [0; MAX_HELD],
            count: 0,
        }
    }

    /// The bytes.
    pub fn bytes(&self) -> &[u8]
        ensures { result.now ≡ self.now }
    {
        &self.bytes[..self.count]
    }

    /// One byte more.
    pub fn push(&mut self, byte: u8)
        requires { length self.old < MAX_HELD }
        ensures { self.new ≡ self.old ++ byte ∷ [] }
    {
        self.bytes[self.count] = byte;
        self.count += 1;
    }
}
