ghost use Rattle.std.specs.Prelude.{◌≡◌, ◌≤◌};
ghost use Rattle.book_snapshot.specs.Layout.{blocks_for, snapshot_place, snapshot_end};

use crate::types::Kept;

/// The bytes of a row, and so of a slot, of the header of a journal and of a block of a snapshot.
pub const ROW_BYTES: usize = 96;

/// The bytes of a row in a journal of version 1.
pub const OLD_ROW_BYTES: usize = 64;

/// The place of the mark in a journal's header, the gate of its snapshot: the one byte that is
/// passed over where a header is compared.
pub const MARK: usize = 8;

/// The gate of a row that counts.
pub const OPEN: u8 = 1;

/// The place of a row's kind, which is never 0.
pub const KIND_PLACE: usize = 1;

/// The place of a row's number, four bytes with the little end first.
pub const NUMBER_PLACE: usize = 2;

/// The place after a row's number, from which on the dense form has its bytes.
pub const FIELDS_PLACE: usize = 6;

/// The bytes of a row that its dense form leaves out: the gate and the number.
pub const LEFT_OUT: usize = 5;

/// The bytes of a block before its content.
pub const BLOCK_HEAD: usize = 2;

/// The bytes of content in a block.
pub const BLOCK_CONTENT: usize = ROW_BYTES - BLOCK_HEAD;

/// The most content bytes of a snapshot: a million rows of the longest dense form.
pub const MAX_CONTENT: u64 = 92_000_000;

/// The second byte of a snapshot's head block.
pub const HEAD: u8 = 83;

/// The second byte of a snapshot's tail block.
pub const TAIL: u8 = 84;

/// The place of the number of rows in a head or tail block, four bytes with the little end first.
pub const ROWS_PLACE: usize = 2;

/// The place of the number of content bytes in a head or tail block, eight bytes with the little
/// end first.
pub const LENGTH_PLACE: usize = 6;

/// The place after these numbers, from which on the block has zeros.
pub const ZEROS_PLACE: usize = 14;

/// The slots before a snapshot: the header, the rows, and the slot with the closed gate.
pub const SLOTS_BEFORE: u32 = 2;

/// How many blocks hold so many bytes of content.
pub fn blocks_for(bytes: u64) -> u64
    requires { bytes ≤ MAX_CONTENT }
    ensures { result ≡ blocks_for bytes }
{
    (bytes + (BLOCK_CONTENT as u64 - 1)) / BLOCK_CONTENT as u64
}

/// The place at which a snapshot of so many rows begins.
pub fn snapshot_place(rows: u32) -> u64
    ensures { result ≡ snapshot_place rows }
{
    ROW_BYTES as u64 * (u64::from(rows) + u64::from(SLOTS_BEFORE))
}

/// The length of a disk that ends with this snapshot.
pub fn snapshot_end(kept: Kept) -> u64
    requires { kept.bytes ≤ MAX_CONTENT }
    ensures { result ≡ snapshot_end kept.rows kept.bytes }
{
    snapshot_place(kept.rows) + ROW_BYTES as u64 * (blocks_for(kept.bytes) + 2)
}
