/// A tare of one product: from its day on, until the next day for which there is one, the empty
/// package weighs this much.
#[derive(Clone, Copy, PartialEq, Eq)]
pub struct DatedTare {
    /// The first day for which the tare is meant, in days since 1970-01-01.
    pub day: i32,
    /// The mass of the empty package in milligrams.
    pub tare: i64,
}

/// Days that follow one another.
#[derive(Clone, Copy, PartialEq, Eq)]
pub struct Span {
    /// The first of the days, in days since 1970-01-01.
    pub from: i32,
    /// The day before which they end, or `None` where they have no end.
    pub until: Option<i32>,
}
