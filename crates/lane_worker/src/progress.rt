use book_words::Prior;

/// What a worker keeps while it weighs: how often the gate opened, and what the next act has to say
/// of it.
#[derive(Clone, Copy, PartialEq, Eq)]
pub(crate) struct Progress {
    pub opened: u32,
    pub prior: Prior,
}
