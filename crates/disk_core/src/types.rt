use std::alloc::AllocError;
use std::error::Error;
use std::fmt;

/// The answer for want of memory.
pub type NoMemory = AllocError;

/// The answer of a call on a device that failed: its count of faults rose in that call.
#[derive(Clone, Copy, Debug, PartialEq, Eq)]
pub struct Failed;

impl fmt::Display for Failed {
    fn fmt<W: fmt::Write>(&self, f: &mut fmt::Formatter<W>) -> fmt::Result {
        f.write_str("the device failed")
    }
}

impl Error for Failed {}

/// A device failed while bytes were written: only the first `done` of them went out.
#[derive(Clone, Copy, Debug, PartialEq, Eq)]
pub struct Partly {
    /// How many bytes went out.
    pub done: usize,
}

impl fmt::Display for Partly {
    fn fmt<W: fmt::Write>(&self, f: &mut fmt::Formatter<W>) -> fmt::Result {
        f.write_str("the device failed before all bytes were written")
    }
}

impl Error for Partly {}
