ghost use Rattle.std.specs.Prelude.{◌≡◌, ◌+◌, ◌<◌, ◌≤◌, ◌⊎◌, ◌++◌, length, take};
ghost use Rattle.book_snapshot.specs.declared.layout.TheConstants.{OLD_ROW_BYTES};
ghost use Rattle.old_journal.specs.Reader.{SlotSays, HeaderSays, SaysAtStage, stage_behind, counted};
ghost use Rattle.old_journal.specs.declared.types.Stage.TheVariants as stages;

use crate::header::is_header;
use crate::types::{OldPiece, Stage};
use book_snapshot::{OLD_ROW_BYTES, OPEN};
use row_format::read_old_row;

/// Bytes after those that a slot has: up to its end, or all.
pub fn fill(slot: &mut [u8; OLD_ROW_BYTES], filled: usize, bytes: &[u8]) -> usize
    requires { filled ≤ OLD_ROW_BYTES }
    ensures size { length slot.new ≡ OLD_ROW_BYTES }
    ensures some { result ≤ length bytes.now }
    ensures fits { filled + result ≤ OLD_ROW_BYTES }
    ensures most { (filled + result ≡ OLD_ROW_BYTES) ⊎ (result ≡ length bytes.now) }
    ensures filled { take (filled + result) slot.new
        ≡ take filled slot.old ++ take result bytes.now }
{
    let count = bytes.len().min(OLD_ROW_BYTES - filled);
    slot[filled..filled + count].copy_from_slice(&bytes[..count]);
    count
}

// What a whole slot says that may be a row with this number.
fn row_in(slot: &[u8; OLD_ROW_BYTES], number: u32) -> OldPiece
    ensures { SlotSays slot.now number result }
{
    if slot[0] != OPEN {
        return OldPiece::Over;
    }
    match read_old_row(slot, number) {
        Ok(entry) => OldPiece::Row { number, entry },
        Err(_) => OldPiece::Bad { number },
    }
}

// What a whole slot says that may be the header.
fn header_in(slot: &[u8; OLD_ROW_BYTES]) -> OldPiece
    ensures { HeaderSays slot.now result }
{
    if is_header(slot) {
        OldPiece::Header
    } else {
        OldPiece::Foreign
    }
}

/// What a whole slot says after so many rows, and where slots still count.
pub fn piece_in(stage: Stage, rows: u32, slot: &[u8; OLD_ROW_BYTES]) -> OldPiece
    requires rows { rows < u32.MAX }
    requires counts { (stage ≡ stages.Header) ⊎ (stage ≡ stages.Rows) }
    ensures { SaysAtStage stage rows slot.now result }
{
    match stage {
        Stage::Header => header_in(slot),
        Stage::Rows => row_in(slot, rows + 1),
        Stage::Foreign => OldPiece::Foreign,
        Stage::Over => OldPiece::Over,
    }
}

/// What the next slot is after a piece.
pub fn stage_behind(stage: Stage, piece: &OldPiece) -> Stage
    ensures { result ≡ stage_behind stage piece.now }
{
    match piece {
        OldPiece::Part => stage,
        OldPiece::Header | OldPiece::Row { .. } | OldPiece::Bad { .. } => Stage::Rows,
        OldPiece::Foreign => Stage::Foreign,
        OldPiece::Over => Stage::Over,
    }
}

/// How many rows there were with a piece.
pub fn rows_with(rows: u32, piece: &OldPiece) -> u32
    requires { rows < u32.MAX }
    ensures { result ≡ counted rows piece.now }
{
    match piece {
        OldPiece::Row { .. } | OldPiece::Bad { .. } => rows + 1,
        _ => rows,
    }
}
