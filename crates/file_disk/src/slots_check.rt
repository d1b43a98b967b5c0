//! Whether the slots of a book's file hold the rows of the snapshot beside them, before anything is
//! written behind it.
ghost use Rattle.std.specs.Prelude.{◌≤◌, ◌+◌, ◌%◌, IfOk, IfSome};
ghost use Rattle.book_snapshot.specs.Blocks.{IsSnapshotSize};

use crate::read_at::ReadAt;
use crate::transfer::fill;
use book_file::{Compared, compare_slots, has_header};
use book_journal::{Kept, MAX_SLOTS, ROW_BYTES};
use book_snapshot::{
    BLOCK_CONTENT, MARK, blocks_for, content_of_blocks, head_block, read_tail, snapshot_end,
    snapshot_place,
};
use std::io;

/// The mark of a journal whose snapshot counts.
const MARKED: u8 = 1;

/// The slots that are compared at once.
const PIECE_SLOTS: usize = 1_024;

/// The bytes of a piece of the slots.
const SLOTS_BYTES: usize = ROW_BYTES * PIECE_SLOTS;

/// The blocks of the snapshot that are read at once: they hold some 1 400 weighings.
const PIECE_BLOCKS: usize = 256;

/// The bytes of these blocks.
const BLOCKS_BYTES: usize = ROW_BYTES * PIECE_BLOCKS;

/// The bytes of their content.
const CONTENT_BYTES: usize = BLOCK_CONTENT * PIECE_BLOCKS;

/// How many rows were compared, and how many bytes of the content these take.
#[derive(Clone, Copy)]
struct Done {
    rows: u32,
    bytes: u64,
}

/// The first row of the snapshot that a file of that many bytes ends with whose slot holds something
/// else. None where all are the same and where no snapshot fits; and where its content ends early or
/// can't be read, which the journal refuses. Pieces are read, and no memory is taken.
pub(crate) fn first_difference<F: ReadAt>(file: &F, size: u64) -> io::Result<Option<u32>> {
    let Some(kept) = snapshot_of(file, size)? else {
        return Ok(None);
    };
    let mut done = Done { rows: 0, bytes: 0 };
    for _piece in 0..MAX_SLOTS {
        let found = compare_piece(file, kept, done)?;
        done = Done {
            rows: done.rows.saturating_add(found.slots as u32),
            bytes: done.bytes + found.bytes as u64,
        };
        if found.differs {
            return Ok(Some(done.rows.saturating_add(1)));
        }
        if found.slots == 0 {
            return Ok(None);
        }
    }
    Ok(None)
}

// The snapshot that fits a file of that many bytes: by its mark, its tail and its head.
fn snapshot_of<F: ReadAt>(file: &F, size: u64) -> io::Result<Option<Kept>>
    ensures { IfOk result (λ kept. IfSome kept (λ found. IsSnapshotSize found.rows found.bytes)) }
{
    let mut block = [0; ROW_BYTES];
    fill(file, 0, &mut block)?;
    if !has_header(&block) || block[MARK] != MARKED {
        return Ok(None);
    }
    fill(file, size.saturating_sub(ROW_BYTES as u64), &mut block)?;
    let Some(kept) = read_tail(&block) else {
        return Ok(None);
    };
    if snapshot_end(kept) != size {
        return Ok(None);
    }
    fill(file, snapshot_place(kept.rows), &mut block)?;
    if block == head_block(kept) {
        Ok(Some(kept))
    } else {
        Ok(None)
    }
}

// Compares the next piece of the slots with the next piece of the content.
fn compare_piece<F: ReadAt>(file: &F, kept: Kept, done: Done) -> io::Result<Compared>
    requires sized { IsSnapshotSize kept.rows kept.bytes }
    requires within { done.bytes ≤ kept.bytes }
    ensures slots { IfOk result (λ found. found.slots ≤ PIECE_SLOTS) }
    ensures bytes { IfOk result (λ found. done.bytes + found.bytes ≤ kept.bytes) }
{
    let mut slots = [0; SLOTS_BYTES];
    let read = read_slots(file, kept, done.rows, &mut slots)?;
    let mut content = [0; CONTENT_BYTES];
    let end = read_content(file, kept, done.bytes, &mut content)?;
    let begin = (done.bytes % BLOCK_CONTENT as u64) as usize;
    let first = done.rows.saturating_add(1);
    Ok(compare_slots(&slots[..read], &content[begin..end], first))
}

// Reads the slots behind so many rows, a piece or what is left, and tells how many bytes these are.
fn read_slots<F: ReadAt>(
    file: &F,
    kept: Kept,
    rows: u32,
    into: &mut [u8; SLOTS_BYTES],
) -> io::Result<usize>
    ensures { IfOk result (λ count. count ≤ SLOTS_BYTES) }
{
    let left = kept.rows.saturating_sub(rows) as usize;
    let size = ROW_BYTES * left.min(PIECE_SLOTS);
    let place = ROW_BYTES as u64 * (u64::from(rows) + 1);
    fill(file, place, &mut into[..size])
}

// Reads the content from the block on in which this byte stands, a piece or what is left, and tells
// how many bytes these are.
fn read_content<F: ReadAt>(
    file: &F,
    kept: Kept,
    from: u64,
    into: &mut [u8; CONTENT_BYTES],
) -> io::Result<usize>
    requires sized { IsSnapshotSize kept.rows kept.bytes }
    requires within { from ≤ kept.bytes }
    ensures most { IfOk result (λ count. count ≤ CONTENT_BYTES) }
    ensures behind { IfOk result (λ count. from % BLOCK_CONTENT ≤ count) }
    ensures within { IfOk result (λ count. from + count ≤ kept.bytes + from % BLOCK_CONTENT) }
{
    let block = from / BLOCK_CONTENT as u64;
    let left = kept.bytes - BLOCK_CONTENT as u64 * block;
    let count = left.min(CONTENT_BYTES as u64) as usize;
    let size = ROW_BYTES * blocks_for(count as u64) as usize;
    let place = snapshot_place(kept.rows) + ROW_BYTES as u64 * (block + 1);
    let mut blocks = [0; BLOCKS_BYTES];
    fill(file, place, &mut blocks[..size])?;
    content_of_blocks(&blocks[..size], &mut into[..count]);
    Ok(count)
}
