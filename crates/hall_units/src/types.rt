use std::alloc::AllocError;

/// Memory was refused.
pub type NoMemory = AllocError;

/// A text that doesn't spell a mass in grams.
#[derive(Clone, Copy, PartialEq, Eq)]
pub struct GramText {
    /// The length of the longest prefix of the text that begins some spelling.
    pub place: usize,
}

/// A text that doesn't spell a day.
#[derive(Clone, Copy, PartialEq, Eq)]
pub struct DayText;
