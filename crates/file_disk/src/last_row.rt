//! The row that was written last, as its bytes have to stand in the file.
use crate::read_at::ReadAt;
use crate::room::BODY_BYTES;
use crate::transfer::fill;
use std::io;

/// The gate of a row that doesn't count.
const CLOSED: u8 = 0;

/// The bytes of a row with its gate, and the gate of the next slot.
const BYTES: usize = BODY_BYTES + 1;

/// A row that was written: the place of its gate, and what stands from there on.
#[derive(Clone, Copy)]
pub(crate) struct LastRow {
    gate: u64,
    bytes: [u8; BYTES],
}

impl LastRow {
    /// A row that was begun, its gate closed: what was written at this place.
    pub(crate) fn begun(place: u64, body: &[u8]) -> Option<LastRow> {
        let gate = place.checked_sub(1)?;
        let mut bytes = [CLOSED; BYTES];
        if body.len() != BODY_BYTES {
            return None;
        }
        bytes[1..].copy_from_slice(body);
        Some(LastRow { gate, bytes })
    }

    /// The same row, behind whose gate this byte was written, if it is its gate.
    pub(crate) fn with_gate(self, place: u64, byte: u8) -> LastRow {
        let mut row = self;
        if place == row.gate {
            row.bytes[0] = byte;
        }
        row
    }

    /// Whether it stands so in a file.
    pub(crate) fn stands_in<F: ReadAt>(&self, file: &F) -> io::Result<bool> {
        let mut there = [CLOSED; BYTES];
        let count = fill(file, self.gate, &mut there)?;
        Ok(count == BYTES && there == self.bytes)
    }
}
