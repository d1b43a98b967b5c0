//! The limits of the hall, each named once. Masses are whole milligrams, days are counted from
//! 1970-01-01.
#![tactic(auto)]

/// The greatest gross of a pack in mg: three times the greatest nominal quantity, so that only a
/// faulty scale or a wrong unit is refused.
pub const MAX_GROSS: i64 = 30_000_000;

/// The greatest tare, and the greatest mass of an empty pack, in mg: half of the greatest nominal
/// quantity, so that only a wrong unit is refused.
pub const MAX_TARE: i64 = 5_000_000;

/// The last day whose date has ten bytes: 9999-12-31. The first is day 0, 1970-01-01.
pub const MAX_DAY: i32 = 2_932_896;

/// The most rows of a book: a book of 96 bytes a row then stays below 100 MB.
pub const MAX_ROWS: u32 = 1_000_000;

/// The most packs of a trial: its book then has room for all of their rows.
pub const MAX_TRIAL: u32 = 100_000;

/// The greatest number of a lane; the least is 1. More lanes than a hall of this kind has.
pub const MAX_LANE: u8 = 16;

/// The greatest number of a door of the office; the least is 1. As many as lanes: a hall needs no
/// more than one for each.
pub const MAX_DOOR: u8 = 16;

/// The least number of a desk: numbers below it are those of lanes and doors.
pub const MIN_DESK: u16 = 101;

/// The greatest number of a desk. 64 desks are more than a hall of this kind has, and few enough
/// for the book to keep the newest row of each at hand.
pub const MAX_DESK: u16 = 164;

/// The most bytes of a name: room for an article number and a date, in a row of 96 bytes.
pub const NAME_BYTES: usize = 32;

/// The least density of goods by volume, in mg a litre: half that of water.
pub const MIN_DENSITY: u32 = 500_000;

/// The greatest density of goods by volume, in mg a litre: twice that of water.
pub const MAX_DENSITY: u32 = 2_000_000;
