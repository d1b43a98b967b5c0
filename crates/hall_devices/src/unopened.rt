use std::alloc::AllocError;

/// Why devices aren't there that the words ask for.
#[derive(Clone, Copy, PartialEq, Eq)]
pub enum Unopened {
    /// There is no memory for them.
    NoMemory,
    /// A port can't be had; standard error says why.
    NoPort,
}

impl From<AllocError> for Unopened {
    fn from(_: AllocError) -> Self {
        Unopened::NoMemory
    }
}
