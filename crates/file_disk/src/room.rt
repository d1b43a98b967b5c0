//! The room ahead of a book's rows. A file that grows with each row has its size made stable with
//! each row too, so zeros are written ahead, a piece at a time, and a row takes the place of some.
//! They lie behind the closed gate of the last row, where nothing counts.
ghost use Rattle.std.specs.Prelude.{◌≤◌, length, IfOk, IfSome};

use crate::read_at::ReadAt;
use crate::transfer::{fill, settle};
use book_file::has_header;
use book_journal::ROW_BYTES;
use book_snapshot::MARK;
use std::fs::File;
use std::io;
use std::os::unix::fs::FileExt;

/// The bytes of a piece of room: some 680 rows. Each ends at a multiple of it.
pub(crate) const PIECE: u64 = 65_536;

/// The bytes of a row as it is begun: those behind its gate, and the gate of the next slot.
pub(crate) const BODY_BYTES: usize = ROW_BYTES;

/// The bytes that are read or written at once.
const PART: usize = 4_096;

/// The parts in which the end of a book is looked for: those of a piece, and one more.
const PARTS: u64 = PIECE / PART as u64 + 1;

/// The mark of a journal whose snapshot counts.
const MARKED: u8 = 1;

/// Whether these bytes, written at a place, begin a row.
pub(crate) fn begins_row(place: u64, bytes: &[u8]) -> bool {
    place % ROW_BYTES as u64 == 1 && bytes.len() == BODY_BYTES
}

/// Whether these bytes, written at a place, make a snapshot count.
pub(crate) fn sets_mark(place: u64, bytes: &[u8]) -> bool {
    place == MARK as u64 && bytes == [MARKED].as_slice()
}

/// Where the piece ends in which a row goes that ends at a place.
pub(crate) fn end_of_piece(end: u64) -> u64 {
    (end / PIECE).saturating_add(1).saturating_mul(PIECE)
}

/// Writes zeros from the end of a file on up to another end, and makes them stable.
pub(crate) fn write_zeros(file: &File, from: u64, end: u64) -> io::Result<()> {
    let zeros = [0; PART];
    let mut place = from;
    for _part in 0..=PARTS {
        let size = end.saturating_sub(place).min(PART as u64);
        file.write_all_at(&zeros[..size as usize], place)?;
        place = place.saturating_add(size);
    }
    settle(file)
}

/// How many bytes of a file of that many count. Of a book the zeros don't that a hall wrote ahead
/// and that were left as it was killed: all behind the slot of the last byte that is none, and
/// behind the gate that follows it. Where there are more than a hall writes all bytes count.
pub(crate) fn counted<F: ReadAt>(file: &F, size: u64) -> io::Result<u64> {
    let mut header = [0; ROW_BYTES];
    fill(file, 0, &mut header)?;
    if !has_header(&header) {
        return Ok(size);
    }
    let mut end = size;
    for _part in 0..=PARTS {
        let from = end.saturating_sub(PART as u64);
        if let Some(last) = last_byte(file, from)? {
            return Ok(size.min(behind_slot(last)));
        }
        end = from;
    }
    Ok(size)
}

// The place of the last byte that isn't 0 in the part of a file from a place on.
fn last_byte<F: ReadAt>(file: &F, from: u64) -> io::Result<Option<u64>> {
    let mut part = [0; PART];
    let count = fill(file, from, &mut part)?;
    Ok(match part[..count].iter().rposition(|byte| *byte != 0) {
        Some(place) => Some(from.saturating_add(place as u64)),
        None => None,
    })
}

// The end of the gate behind the slot in which a byte stands.
fn behind_slot(place: u64) -> u64 {
    let slot = ROW_BYTES as u64;
    (place / slot)
        .saturating_add(1)
        .saturating_mul(slot)
        .saturating_add(1)
}
