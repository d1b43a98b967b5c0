use book_words::Entry;
use std::marker::Model;

/// A lawful act with its row: room for it is taken, and it can be entered until another act is made
/// ready.
#[derive(Drop)]
pub struct Ready {
    row: u32,
    taken: Entry,
}

impl Model for Ready {
    ghost use Rattle.book_core.specs.View.{ReadyEntry};

    ghost Value = { ReadyEntry };

    ghost view = { λ r. record { number = r.row; entry = r.taken } };
}

impl Ready {
    ghost use Rattle.std.specs.Prelude.{◌≡◌};

    /// An entry with its row.
    pub(crate) fn new(number: u32, entry: Entry) -> Ready
        ensures { result ≡ record { number = number; entry = entry } }
    {
        Ready {
            row: number,
            taken: entry,
        }
    }

    /// The row that the entry will have.
    pub fn number(&self) -> u32
        ensures { result ≡ self.now.number }
    {
        self.row
    }

    /// The entry.
    pub fn entry(&self) -> &Entry
        ensures { result.now ≡ self.now.entry }
    {
        &self.taken
    }
}
