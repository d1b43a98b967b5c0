//! Where the fields of every row stand, after its gate, kind and number.

/// The place of who brought the entry, in two bytes.
pub const BY_PLACE: usize = 6;

/// The place of the desk, in two bytes.
pub const DESK_PLACE: usize = 8;

/// The place of the number of the desk's request, in four bytes.
pub const REQUEST_PLACE: usize = 10;

/// The place of the fields of the kind.
pub const ACT_PLACE: usize = 14;
