use std::error::Error;
use std::fmt;

/// The limits of a nominal quantity, in mg. A net below `t1` is non-standard, a net below `t2`
/// inadequate; equality with a limit is not below it.
#[derive(Clone, Copy, PartialEq, Eq)]
pub struct Limits {
    /// The nominal quantity less one tolerable negative error.
    pub t1: i64,
    /// The nominal quantity less two tolerable negative errors.
    pub t2: i64,
    /// The tolerable negative error.
    pub tne: i64,
}

/// The nominal quantity isn't one of 5 000 mg to 10 000 000 mg.
#[derive(Clone, Copy, Debug, PartialEq, Eq)]
pub struct NominalRange;

impl fmt::Display for NominalRange {
    fn fmt<W: fmt::Write>(&self, f: &mut fmt::Formatter<W>) -> fmt::Result {
        f.write_str("the nominal quantity isn't 5 g to 10 kg")
    }
}

impl Error for NominalRange {}

/// Whether the packs that are measured are kept (the non-destructive test) or emptied (the
/// destructive test).
#[derive(Clone, Copy, Debug, PartialEq, Eq)]
pub enum Mode {
    /// The non-destructive test.
    Keep,
    /// The destructive test.
    Destroy,
}

/// How many packs of a batch are measured, and what their measures are held against (Annex II).
#[derive(Clone, Copy, PartialEq, Eq)]
pub struct Plan {
    /// The size of the first sample.
    pub first: u32,
    /// The greatest number of defectives in the first sample at which it accepts.
    pub c1: u32,
    /// The least number of defectives in the first sample at which it rejects.
    pub r1: u32,
    /// The size of the second sample; 0 where the plan has none.
    pub second: u32,
    /// The greatest number of defectives in both samples at which they accept.
    pub c2: u32,
    /// The least number of defectives in both samples at which they reject.
    pub r2: u32,
    /// How many packs of the first sample the mean looks at, in drawing order.
    pub mean_n: u32,
    /// How many thousandths of the standard deviation the mean may fall short by; 0 where it may
    /// not fall short.
    pub k1000: u32,
}

/// There is no plan for the batch.
#[derive(Clone, Copy, Debug, PartialEq, Eq)]
pub enum PlanRefusal {
    /// The batch has no pack.
    Empty,
    /// A batch of `n` packs, 1 to 99, is too small for the destructive test.
    Small {
        /// The number of packs in the batch.
        n: u32,
    },
}

impl fmt::Display for PlanRefusal {
    fn fmt<W: fmt::Write>(&self, f: &mut fmt::Formatter<W>) -> fmt::Result {
        match self {
            PlanRefusal::Empty => f.write_str("the batch has no pack"),
            PlanRefusal::Small { n } => {
                write!(
                    f,
                    "a batch of {n} packs is too small for the destructive test"
                )
            }
        }
    }
}

impl Error for PlanRefusal {}
