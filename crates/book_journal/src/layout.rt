ghost use Rattle.std.specs.Prelude.{◌≡◌};
ghost use Rattle.book_journal.specs.Rows.{gate_behind};

use book_snapshot::ROW_BYTES;
use hall_limits::MAX_ROWS;

/// The mark of a journal whose snapshot counts.
pub const MARKED: u8 = 1;

/// The gate of a row that doesn't count, and the mark of a journal without a snapshot.
pub const CLOSED: u8 = 0;

/// The bytes of a new journal: the header, and the closed gate of the first slot.
pub const NEW_BYTES: usize = ROW_BYTES + 1;

/// The most slots that are counted: one more than a journal may have rows.
pub const MAX_SLOTS: u32 = MAX_ROWS + 1;

/// The place of the gate behind so many rows.
pub(crate) fn gate_behind(count: u32) -> u64
    ensures { result ≡ gate_behind count }
{
    ROW_BYTES as u64 * (u64::from(count) + 1)
}
