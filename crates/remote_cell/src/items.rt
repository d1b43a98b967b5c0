use book_words::Name;
use std::marker::Model;

/// What a scale sends in one line.
#[derive(Clone, Copy, PartialEq, Eq)]
pub enum Item {
    /// The gross of a pack in mg.
    Gross(i64),
    /// The packs that follow are for this batch.
    Batch(Name),
    /// There are no more weights.
    End,
}

/// All that a scale has to send: at most `u32::MAX` items, of which the last alone is `End`.
#[derive(Drop)]
pub struct Items(Vec<Item>);

impl Model for Items {
    ghost use Rattle.std.specs.Prelude.{List};
    ghost use Rattle.remote_cell.specs.declared.items.Item.{Item};
    ghost use Rattle.remote_cell.specs.Exchanges.{MayBeSent};

    ghost Value = { List Item };

    ghost view = { λ all. all.0.items };

    ghost invariant = { λ all. MayBeSent all.0.items };
}

impl Items {
    ghost use Rattle.std.specs.Prelude.{◌≡◌, ◌-◌, ◌^◌, ◌≤◌, length, slice_get};
    ghost use Rattle.remote_cell.specs.Exchanges.{MayBeSent};

    /// These items, in order. It takes no memory.
    pub fn new(items: Vec<Item>) -> Self
        requires { MayBeSent items.items }
        ensures { result ≡ items.items }
    {
        Items(items)
    }

    // The item at a place, counted from 0.
    pub(crate) fn get(&self, place: u32) -> Option<Item>
        ensures item { result ≡ slice_get self.now place }
        ensures few { length self.now ≤ 2 ^ 32 - 1 }
    {
        self.0.get(place as usize).copied()
    }
}
