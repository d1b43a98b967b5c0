use book_words::Name;

/// What a cell gives next.
#[derive(Clone, Copy, PartialEq, Eq)]
pub enum CellNext {
    /// The gross of a pack in mg.
    Gross(i64),
    /// The packs that follow are for this batch. Lines are counted from 1.
    Batch { batch: Name, line: u32 },
    /// There are no more weights.
    End,
    /// The next item is neither a weight nor a batch. Lines are counted from 1.
    Bad { line: u32 },
    /// The cell has a bound on what it looks at, and has reached it.
    Spent,
}
