use book_words::{Act, Entry, Name, Prior};
use pack_judge::Signal;
use row_format::ROW_BYTES;
use std::fmt;

/// Bytes at a place of a row.
pub type Piece = (usize, &'static [u8]);

/// The number of a row, and its bytes at their places.
pub type Row = (u32, &'static [Piece]);

/// Bytes of a good row, the place of one that is changed and its new value, and the fault.
pub type Broken = (&'static [Piece], usize, u8, usize);

/// Puts bytes at a place.
pub fn put(row: &mut [u8], place: usize, bytes: &[u8]) {
    for (there, byte) in row.iter_mut().skip(place).zip(bytes) {
        *there = *byte;
    }
}

/// The row with these bytes at their places, and zeros elsewhere.
pub fn row_of(pieces: &[Piece]) -> [u8; ROW_BYTES] {
    let mut row = [0; ROW_BYTES];
    for (place, bytes) in pieces {
        put(&mut row, *place, bytes);
    }
    row
}

/// A name of these bytes.
pub fn named(bytes: &[u8]) -> Result<Name, fmt::Error> {
    Name::new(bytes).ok_or(fmt::Error)
}

/// An entry that a script brought.
pub fn from_script(act: Act) -> Entry {
    Entry {
        by: 0,
        desk: 0,
        request: 0,
        act,
        signal: None,
    }
}

/// A weighing that a script brought.
pub fn weighed(lane: u8, gross: i64, prior: Prior, signal: Signal) -> Entry {
    Entry {
        signal: Some(signal),
        ..from_script(Act::Weigh { lane, gross, prior })
    }
}

/// The seventh request of desk 101, brought by door 2.
pub fn from_desk(act: Act) -> Entry {
    Entry {
        by: 2,
        desk: 101,
        request: 7,
        ..from_script(act)
    }
}
