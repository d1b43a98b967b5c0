use book_words::{Answered, Refused};
use std::alloc::AllocError;

/// Memory was refused.
pub type NoMemory = AllocError;

/// What a book answers to an ask.
pub type Taken = Result<Answered, Refused>;
