ghost use Rattle.std.specs.Prelude.{◌≡◌};
ghost use Rattle.std.specs.Cmp.Lexicographic.{pointwise, lists_per, lists_equiv};
ghost use Rattle.book_words.specs.contracts.views.ActViewPartialEq.TheImpl as acts;
ghost use Rattle.book_words.specs.contracts.views.ActViewPartialEq.TheImpl.Laws as compared;
ghost use Rattle.book_words.specs.contracts.views.ActViewEq.TheImpl.Laws as same;
ghost use Rattle.book_words.specs.contracts.views.PackViewPartialEq.TheImpl as packs;
ghost use Rattle.book_words.specs.contracts.views.PackViewPartialEq.TheImpl.Laws as matched;
ghost use Rattle.book_words.specs.contracts.views.PackViewEq.TheImpl.Laws as alike;

use crate::views::{ActView, PackView};
use std::marker::Model;

/// Some rows as they were told, in their order. It is made from a `Vec` without taking memory.
pub struct ActList {
    acts: Vec<ActView>,
}

impl Drop for ActList {
    fn drop(self) {
        let Self { acts: _ } = self;
    }
}

// Clauses see the rows, in their order.
impl Model for ActList {
    ghost use Rattle.std.specs.Prelude.{List};
    ghost use Rattle.book_words.specs.declared.views.ActView.{ActView};

    ghost Value = { List ActView };

    ghost view = { λ list. list.acts.items };
}

impl ActList {
    /// The rows in their order.
    pub fn as_slice(&self) -> &[ActView]
        ensures { result.now ≡ self.now }
    {
        self.acts.as_slice()
    }
}

impl PartialEq for ActList {
    ghost eq = { pointwise acts.ghosts.eq };

    ghost laws = { lists_per compared.laws-law };

    fn eq(&self, other: &ActList) -> bool {
        self.acts == other.acts
    }
}

impl Eq for ActList {
    ghost laws = { lists_equiv same.laws-law };
}

impl From<Vec<ActView>> for ActList {
    ghost from_gives = { λ acts list. list ≡ acts.items };

    fn from(acts: Vec<ActView>) -> Self {
        ActList { acts }
    }
}

/// Some packs, in the order of their numbers. It is made from a `Vec` without taking memory.
pub struct PackList {
    packs: Vec<PackView>,
}

impl Drop for PackList {
    fn drop(self) {
        let Self { packs: _ } = self;
    }
}

// Clauses see the packs, in their order.
impl Model for PackList {
    ghost use Rattle.std.specs.Prelude.{List};
    ghost use Rattle.book_words.specs.declared.views.PackView.{PackView};

    ghost Value = { List PackView };

    ghost view = { λ list. list.packs.items };
}

impl PackList {
    /// The packs in their order.
    pub fn as_slice(&self) -> &[PackView]
        ensures { result.now ≡ self.now }
    {
        self.packs.as_slice()
    }
}

impl PartialEq for PackList {
    ghost eq = { pointwise packs.ghosts.eq };

    ghost laws = { lists_per matched.laws-law };

    fn eq(&self, other: &PackList) -> bool {
        self.packs == other.packs
    }
}

impl Eq for PackList {
    ghost laws = { lists_equiv alike.laws-law };
}

impl From<Vec<PackView>> for PackList {
    ghost from_gives = { λ packs list. list ≡ packs.items };

    fn from(packs: Vec<PackView>) -> Self {
        PackList { packs }
    }
}
