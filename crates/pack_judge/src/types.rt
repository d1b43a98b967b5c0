/// What a net is by the two limits of its nominal quantity (Annex I).
#[derive(Clone, Copy, PartialEq, Eq)]
pub enum Class {
    /// Not below the nominal quantity less one tolerable negative error.
    Standard,
    /// Below that, but not below the nominal quantity less two errors.
    NonStandard,
    /// Below the nominal quantity less two errors.
    Inadequate,
}

/// Why a pack is rejected.
#[derive(Clone, Copy, PartialEq, Eq)]
pub enum Cause {
    /// An inadequate pack lies in the population of the batch.
    Held,
    /// The population has the most packs that it may have.
    Full,
    /// The pack itself is inadequate.
    Inadequate,
    /// The pack is non-standard, and the non-standard packs of the population are more than one in
    /// forty.
    Allowance,
}

/// What the gate is told about a pack.
#[derive(Clone, Copy, PartialEq, Eq)]
pub enum Signal {
    /// The gate may open.
    Pass,
    /// The pack is taken out, for this cause.
    Reject(Cause),
}

/// Where a reading lies: in exactly one of the four piles.
#[derive(Clone, Copy, Debug, PartialEq, Eq)]
pub enum Pile {
    /// Passed, and in none of the other piles.
    Passed,
    /// Rejected by its signal, or left behind by a gate that stayed shut.
    Rejected,
    /// Passed, and drawn for a reference test.
    Sampled,
    /// Taken back by the office, or of unknown whereabouts.
    Voided,
}

/// How many readings a pile has, and the sum of their gross masses in mg.
#[derive(Clone, Copy, PartialEq, Eq)]
pub struct Tally {
    /// How many readings.
    pub count: u32,
    /// The sum of their gross masses, in mg.
    pub gross: i64,
}
