use book_words::Entry;

/// What the bytes said that were taken last.
#[derive(Clone, Copy, PartialEq, Eq)]
pub enum OldPiece {
    /// Some bytes of a slot.
    Part,
    /// The header is whole.
    Header,
    /// The first 64 bytes aren't the header.
    Foreign,
    /// A row that spells an entry.
    Row { number: u32, entry: Entry },
    /// A row that spells none.
    Bad { number: u32 },
    /// A slot was closed: what follows it is passed over.
    Over,
}

/// What the next slot is.
#[derive(Clone, Copy, PartialEq, Eq)]
pub enum Stage {
    /// The header.
    Header,
    /// A row, if its gate is open.
    Rows,
    /// Passed over, since the header is another's.
    Foreign,
    /// Passed over, since it stands after a closed gate.
    Over,
}
