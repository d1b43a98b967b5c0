use book_words::Name;

/// What a changing lane does next.
#[derive(Clone, Copy)]
pub enum Next {
    /// It is worked for this batch.
    Works(Name),
    /// It waits for a batch, its gate shut.
    Waits,
    /// Nothing: it has ended.
    Ends,
}
