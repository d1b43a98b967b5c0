ghost use Rattle.std.specs.Prelude.{◌≡◌, ◌+◌, ◌-◌, ◌*◌, ◌<◌, ◌≤◌, ◌++◌, ℕ, length, replicate};
ghost use Rattle.device_facts.specs.Count.{CountsFault};
ghost use Rattle.device_facts.specs.Known.{TellsAsBefore};
ghost use Rattle.disk_core.specs.Disk.{WhereTold};
ghost use Rattle.book_snapshot.specs.Layout.{blocks_for};
ghost use Rattle.book_snapshot.specs.Blocks.{end_block, content_blocks, IsSnapshotSize};
ghost use Rattle.book_journal.specs.Rows.{gate_behind};
ghost use Rattle.book_journal.specs.Marking.{behind_closed_gate};
ghost use Rattle.book_journal.specs.Laying.{WritesBehind};

use crate::blocks::{BLOCKS_BYTES, BLOCKS_CONTENT};
use crate::layout::gate_behind;
use book_snapshot::{
    HEAD, Kept, MAX_CONTENT, ROW_BYTES, blocks_for, head_block, put_blocks, snapshot_place,
    tail_block,
};
use disk_core::{Disk, Failed};
use hall_limits::MAX_ROWS;

const FRONT: usize = ROW_BYTES - 1 + ROW_BYTES;

/// The greatest place from which on content is written: behind the longest journal's head block.
const MAX_PLACE: u64 = ROW_BYTES as u64 * (MAX_ROWS as u64 + 3);

/// Writes a snapshot behind the closed gate, in order: zeros to the end of its slot, the head
/// block, the content in blocks, the tail block.
pub(crate) fn write_snapshot<D: Disk>(
    disk: &mut D,
    kept: Kept,
    content: &[u8],
) -> Result<(), Failed>
    requires size { IsSnapshotSize kept.rows kept.bytes }
    requires content { kept.bytes ≡ length content.now }
    requires within { WhereTold (D.reads disk.old) (λ there. gate_behind kept.rows < length there) }
    ensures writes { WhereTold (D.reads disk.old) (λ there. WritesBehind D.Disk
        (gate_behind kept.rows + 1) (behind_closed_gate kept.rows content.now)
        result there disk.old disk.new) }
    ensures tells { TellsAsBefore (D.reads disk.old) (D.reads disk.new) }
    ensures cause { CountsFault (D.faults disk.old) (D.faults disk.new) result }
    ensures asked { D.asked disk.new ≡ D.asked disk.old }
{
    disk.write_at(gate_behind(kept.rows) + 1, &front_of(kept))?;
    let place = snapshot_place(kept.rows) + ROW_BYTES as u64;
    write_content(disk, place, content)?;
    disk.write_at(
        place + ROW_BYTES as u64 * blocks_for(kept.bytes),
        &tail_block(kept),
    )?;
    Ok(())
}

// Zeros to the end of a slot, and the head block.
fn front_of(kept: Kept) -> [u8; FRONT]
    ensures { result ≡ replicate (ROW_BYTES - 1) 0 ++ end_block HEAD kept.rows kept.bytes }
{
    let mut front = [0; FRONT];
    front[ROW_BYTES - 1..].copy_from_slice(&head_block(kept));
    front
}

// Writes content in blocks from a place on, piece by piece.
fn write_content<D: Disk>(disk: &mut D, place: u64, content: &[u8]) -> Result<(), Failed>
    requires most { length content.now ≤ MAX_CONTENT }
    requires within { WhereTold (D.reads disk.old) (λ there. place ≤ length there) }
    requires place { place ≤ MAX_PLACE }
    ensures writes { WhereTold (D.reads disk.old) (λ there. WritesBehind D.Disk place
        (content_blocks (blocks_for (length content.now)) content.now)
        result there disk.old disk.new) }
    ensures tells { TellsAsBefore (D.reads disk.old) (D.reads disk.new) }
    ensures cause { CountsFault (D.faults disk.old) (D.faults disk.new) result }
    ensures asked { D.asked disk.new ≡ D.asked disk.old }
{
    let mut blocks = [0; BLOCKS_BYTES];
    let pieces = (content.len() + (BLOCKS_CONTENT - 1)) / BLOCKS_CONTENT;
    for piece in 0..pieces {
        let start = BLOCKS_CONTENT * piece;
        let end = (start + BLOCKS_CONTENT).min(content.len());
        let size = ROW_BYTES * blocks_for((end - start) as u64) as usize;
        let part = &mut blocks[..size];
        put_blocks(&content[start..end], part);
        disk.write_at(place + (BLOCKS_BYTES * piece) as u64, part)?;
    }
    Ok(())
}
