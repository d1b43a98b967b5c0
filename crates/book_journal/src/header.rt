ghost use Rattle.std.specs.Prelude.{◌≡◌, ◌≢◌, ◌<◌, ℕ, length, MatchOption, slice_index};
ghost use Rattle.book_journal.specs.Rows.{title, FirstDiffersAt};
ghost use Rattle.book_journal.specs.Mounting.{new_journal};

use crate::layout::NEW_BYTES;
use book_snapshot::{MARK, ROW_BYTES};

const TITLE: [u8; 8] = *b"AQHBOOK2";

/// A journal without rows: the header, and the closed gate of the first slot.
pub(crate) fn new_journal() -> [u8; NEW_BYTES]
    ensures { result ≡ new_journal }
{
    let mut bytes = [0; NEW_BYTES];
    bytes[..TITLE.len()].copy_from_slice(&TITLE);
    bytes
}

/// Finds the first byte that differs from the header's.
pub(crate) fn difference(bytes: &[u8; ROW_BYTES]) -> Option<usize>
    ensures { MatchOption result
        ((k : ℕ) → k < ROW_BYTES → k ≢ MARK → slice_index bytes.now k ≡ slice_index title k)
        (FirstDiffersAt bytes.now) }
{
    let header = new_journal();
    for place in 0..ROW_BYTES {
        if place != MARK && bytes[place] != header[place] {
            return Some(place);
        }
    }
    None
}
