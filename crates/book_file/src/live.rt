ghost use Rattle.std.specs.Prelude.{◌≡◌, ◌↔◌, ◌≤◌, true, length};
ghost use Rattle.book_journal.specs.Rows.{HasHeader, open_rows, gate_behind};
ghost use Rattle.book_file.specs.Live.{live_count, unmarked};

use crate::begin::header_byte;
use book_journal::{MAX_SLOTS, ROW_BYTES};
use book_snapshot::{MARK, OPEN};

/// Whether the bytes begin with the header of a journal, whose mark is passed over.
pub fn has_header(bytes: &[u8]) -> bool
    ensures { (result ≡ true) ↔ HasHeader bytes.now }
{
    if bytes.len() < ROW_BYTES {
        return false;
    }
    for place in 0..ROW_BYTES {
        if place != MARK && bytes[place] != header_byte(place) {
            return false;
        }
    }
    true
}

/// How many rows a reader takes of the file of a book that a running hall has open: those of its
/// slots up to the first that is cut or closed, but the last.
pub fn live_count(bytes: &[u8]) -> usize
    ensures count { result ≡ live_count bytes.now }
    ensures within { ROW_BYTES ≤ length bytes.now → gate_behind result ≤ length bytes.now }
{
    if bytes.len() < ROW_BYTES {
        return 0;
    }
    open_slots(&bytes[ROW_BYTES..]).saturating_sub(1)
}

// Counts the slots up to the first that is cut or closed, and at most one more than a journal has
// rows.
fn open_slots(bytes: &[u8]) -> usize
    ensures { result ≡ length (open_rows MAX_SLOTS bytes.now) }
{
    let whole = (bytes.len() / ROW_BYTES).min(MAX_SLOTS as usize);
    for slot in 0..whole {
        if bytes[ROW_BYTES * slot] != OPEN {
            return slot;
        }
    }
    whole
}

/// Takes the mark away, so that no snapshot counts.
pub fn clear_mark(bytes: &mut [u8])
    ensures { bytes.new ≡ unmarked bytes.old }
{
    if bytes.len() > MARK {
        bytes[MARK] = 0;
    }
}
