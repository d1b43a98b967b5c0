use book_words::Name;
use lane_worker::CellNext;

/// What a cell is to give, as a table in a constant can hold it: a batch by the bytes of its name.
#[derive(Clone, Copy)]
pub enum CellItem {
    Gross(i64),
    Batch(&'static [u8], u32),
    End,
    Bad { line: u32 },
    Spent,
}

impl CellItem {
    /// The same, as a cell gives it; bytes that are no name are bad at their line.
    pub fn next(&self) -> CellNext {
        match self {
            CellItem::Gross(gross) => CellNext::Gross(*gross),
            CellItem::Batch(name, line) => batch_or_bad(name, *line),
            CellItem::End => CellNext::End,
            CellItem::Bad { line } => CellNext::Bad { line: *line },
            CellItem::Spent => CellNext::Spent,
        }
    }
}

// A batch of this name, or a bad line.
fn batch_or_bad(name: &[u8], line: u32) -> CellNext {
    match Name::new(name) {
        Some(batch) => CellNext::Batch { batch, line },
        None => CellNext::Bad { line },
    }
}
