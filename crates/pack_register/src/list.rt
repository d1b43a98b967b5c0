ghost use Rattle.std.specs.Prelude.{◌≡◌, ◌↔◌, [], length, IsTrue};

use book_words::PackView;
use std::marker::Model;

/// Packs in the order of their weighings. It is made from a `Vec` and gives it back without taking
/// memory.
#[derive(Drop)]
pub struct PackList {
    packs: Vec<PackView>,
}

// Clauses see the packs, in their order.
impl Model for PackList {
    ghost use Rattle.std.specs.Prelude.{List};
    ghost use Rattle.book_words.specs.declared.views.PackView.{PackView};

    ghost Value = { List PackView };

    ghost view = { λ list. list.packs.items };
}

impl PackList {
    /// How many packs there are.
    pub fn len(&self) -> usize
        ensures { result ≡ length self.now }
    {
        self.packs.len()
    }

    /// Whether there is no pack.
    pub fn is_empty(&self) -> bool
        ensures { IsTrue result ↔ (self.now ≡ []) }
    {
        self.packs.is_empty()
    }

    /// The packs in their order.
    pub fn as_slice(&self) -> &[PackView]
        ensures { result.now ≡ self.now }
    {
        self.packs.as_slice()
    }
}

impl From<Vec<PackView>> for PackList {
    ghost from_gives = { λ packs list. list ≡ packs.items };

    fn from(packs: Vec<PackView>) -> Self {
        PackList { packs }
    }
}

impl From<PackList> for Vec<PackView> {
    ghost from_gives = { λ list packs. packs.items ≡ list };

    fn from(list: PackList) -> Self {
        list.packs
    }
}
