ghost use Rattle.std.specs.Prelude.{◌≡◌, ◌↔◌, [], length, IsTrue, nat_eq};
ghost use Rattle.std.specs.Cmp.Lexicographic.{pointwise};
ghost use Rattle.std.specs.Cmp.Rules.{comparing};
ghost use Rattle.std.proofs.Common.{rules};

use std::alloc::AllocError;
use std::marker::Model;

/// Memory that was wanted could not be had.
pub type NoMemory = AllocError;

/// The packs that were drawn, in drawing order. It is made from a `Vec` and gives it back without
/// taking memory.
#[derive(Drop)]
pub struct Picks {
    packs: Vec<u64>,
}

// Clauses see the packs, in drawing order.
impl Model for Picks {
    ghost use Rattle.std.specs.Prelude.{List, ℕ};

    ghost Value = { List ℕ };

    ghost view = { λ picks. picks.packs.items };
}

impl Picks {
    /// How many packs were drawn.
    pub fn len(&self) -> usize
        ensures { result ≡ length self.now }
    {
        self.packs.len()
    }

    /// Whether no pack was drawn.
    pub fn is_empty(&self) -> bool
        ensures { IsTrue result ↔ (self.now ≡ []) }
    {
        self.packs.is_empty()
    }

    /// The packs in drawing order.
    pub fn as_slice(&self) -> &[u64]
        ensures { result.now ≡ self.now }
    {
        self.packs.as_slice()
    }
}

impl PartialEq for Picks {
    ghost eq = { pointwise nat_eq };

    ghost laws = { Prim.search (comparing, rules) };

    fn eq(&self, other: &Picks) -> bool {
        self.packs == other.packs
    }
}

impl Eq for Picks {
    ghost laws = { Prim.search (comparing, rules) };
}

impl From<Vec<u64>> for Picks {
    ghost from_gives = { λ packs picks. picks ≡ packs.items };

    fn from(packs: Vec<u64>) -> Self {
        Picks { packs }
    }
}

impl From<Picks> for Vec<u64> {
    ghost from_gives = { λ picks packs. packs.items ≡ picks };

    fn from(picks: Picks) -> Self {
        picks.packs
    }
}
