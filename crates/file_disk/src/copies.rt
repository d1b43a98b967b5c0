//! Disks in memory of what a file holds.
ghost use Rattle.std.specs.Prelude.{◌≡◌, ◌-◌, ◌≤◌, length, take, drop, IfOk, OnOk};
ghost use Rattle.disk_core.specs.Disk.{WhereTold};
ghost use Rattle.book_journal.specs.Rows.{HasHeader, gate_behind};
ghost use Rattle.book_file.specs.Live.{live_count, live_file, unmarked};

use crate::open_error::OpenError;
use crate::read_at::ReadAt;
use crate::transfer::fill;
use book_file::{clear_mark, has_header, live_count};
use book_journal::{MAX_SLOTS, ROW_BYTES};
use std::alloc::Global;

/// The most bytes that are taken of a file: the slots of a full book, and as many for its snapshot.
const MOST_BYTES: u64 = 2 * ROW_BYTES as u64 * (MAX_SLOTS as u64 + 2);

/// The room that a book in memory needs behind its bytes: for the gate that mounting closes, or for
/// a new header.
const MORE_BYTES: usize = 2 * ROW_BYTES;

// Room in memory for a file of so many bytes, all zeros.
fn room(alloc: Global, size: u64) -> Result<Vec<u8>, OpenError>
    ensures { IfOk result (λ room. MORE_BYTES ≤ length room.items) }
{
    Ok(vec![in alloc; 0u8; size.min(MOST_BYTES) as usize + MORE_BYTES]?)
}

/// The bytes of a file of that many bytes, as they stand.
pub(crate) fn read_still<F: ReadAt>(
    alloc: Global,
    file: &F,
    size: u64,
) -> Result<Vec<u8>, OpenError> {
    let mut bytes = room(alloc, size)?;
    let count = fill(file, 0, &mut bytes)?;
    bytes.truncate(count);
    Ok(bytes)
}

/// What is taken of a book's file of that many bytes that a running hall has open: the header and the
/// rows that stay. They are counted first and read then. A file without a header is taken as it
/// stands.
pub(crate) fn read_running<F: ReadAt>(
    alloc: Global,
    file: &F,
    size: u64,
) -> Result<Vec<u8>, OpenError> {
    let mut bytes = room(alloc, size)?;
    let count = fill(file, 0, &mut bytes)?;
    if !has_header(&bytes[..count]) {
        bytes.truncate(count);
        return Ok(bytes);
    }
    let end = ROW_BYTES * (live_count(&bytes[..count]) + 1);
    let again = fill(file, 0, &mut bytes[..end])?;
    bytes.truncate(again);
    clear_mark(&mut bytes);
    Ok(bytes)
}
