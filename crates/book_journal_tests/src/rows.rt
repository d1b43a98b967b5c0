use crate::journals::Row;

// Puts some bytes at a place of a row.
fn put(row: &mut Row, place: usize, bytes: &[u8]) {
    for (there, byte) in row.iter_mut().skip(place).zip(bytes) {
        *there = *byte;
    }
}

// A row of this kind, with these bytes at the places 14 and 47.
fn row_of(kind: u8, first: &[u8], second: &[u8]) -> Row {
    let mut row = [0; 96];
    row[1] = kind;
    put(&mut row, 14, first);
    put(&mut row, 47, second);
    row
}

/// The five rows of a worked script, byte by byte: the day 2025-03-03, the product rice250 of
/// 250 g, its tare of 10 g, the batch A, its start on lane 1. The gate and the number of each row
/// are left 0.
pub(crate) fn worked_rows() -> [Row; 5] {
    [
        row_of(1, &[0xb6, 0x4e], &[]),
        row_of(2, b"\x07rice250", &[0x90, 0xd0, 0x03]),
        row_of(3, b"\x07rice250", &[0xb6, 0x4e, 0, 0, 0x10, 0x27]),
        row_of(4, &[1, b'A'], b"\x07rice250"),
        row_of(5, &[1, 1, b'A'], &[]),
    ]
}

/// How many bytes the dense forms of these rows have: 171 together.
pub(crate) const WORKED_SIZES: [usize; 5] = [12, 46, 49, 51, 13];

/// A row that is full of one byte, so that its dense form has 92 bytes.
pub(crate) fn full_row(byte: u8) -> Row {
    let mut row = [byte; 96];
    row[1] = 6;
    row
}
