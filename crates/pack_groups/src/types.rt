use pack_judge::Tally;

/// The totals of a batch. All masses are in mg.
#[derive(Clone, Copy, PartialEq, Eq)]
pub struct Totals {
    /// The packs that passed.
    pub passed: Tally,
    /// The packs that were rejected.
    pub rejected: Tally,
    /// The packs that were drawn for a reference test.
    pub sampled: Tally,
    /// The packs that were taken back.
    pub voided: Tally,
    /// How many packs the population has: those that passed or were sampled.
    pub population: u32,
    /// The sum of the nets of the population.
    pub net: i64,
    /// How many packs of the population have a net below `t1`, inadequate ones among them.
    pub nonstandard: u32,
    /// How many packs of the population have a net below `t2`.
    pub inadequate: u32,
}

/// The tallies of the packs of all batches together, a pile each. All masses are in mg.
#[derive(Clone, Copy, PartialEq, Eq)]
pub struct Piles {
    /// The packs that passed.
    pub passed: Tally,
    /// The packs that were rejected.
    pub rejected: Tally,
    /// The packs that were drawn for a reference test.
    pub sampled: Tally,
    /// The packs that were taken back.
    pub voided: Tally,
}
