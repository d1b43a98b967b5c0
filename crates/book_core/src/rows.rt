use book_words::Entry;
use std::marker::Model;

/// A list of entries.
#[derive(Drop)]
pub struct Rows {
    rows: Vec<Entry>,
}

impl Model for Rows {
    ghost use Rattle.std.specs.Prelude.{List};
    ghost use Rattle.book_words.specs.declared.act.Entry.{Entry};

    ghost Value = { List Entry };

    ghost view = { λ r. r.rows.items };
}

impl Rows {
    ghost use Rattle.std.specs.Prelude.{◌≡◌};

    /// The list of these entries.
    pub fn new(rows: Vec<Entry>) -> Rows
        ensures { result ≡ rows.items }
    {
        Rows { rows }
    }

    /// The entries, to be read.
    pub fn as_slice(&self) -> &[Entry]
        ensures { result.now ≡ self.now }
    {
        &self.rows
    }
}
