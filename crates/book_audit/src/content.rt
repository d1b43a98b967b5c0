ghost use Rattle.std.specs.Prelude.{◌≡◌, ◌-◌, ◌*◌, ◌<◌, ◌≤◌, ◌++◌, min, IfOk, IfErr, OnOk, length, take, drop};
ghost use Rattle.device_facts.specs.Count.{CountsFault};
ghost use Rattle.disk_core.specs.Disk.{WhereTold};
ghost use Rattle.disk_core.specs.Devices.{IsUnmoved};
ghost use Rattle.book_snapshot.specs.Blocks.{EndsWithSnapshot, IsSnapshotSize, snapshot_content};
ghost use Rattle.book_mount.specs.Opening.{CountsReading};
ghost use Rattle.book_mount.specs.Mounting.{IsPassing, calls_for};

use book_journal::{BLOCKS_CONTENT, Kept, ROW_BYTES};
use book_mount::MountError;
use book_snapshot::{BLOCK_CONTENT, MAX_CONTENT, blocks_for, content_of_blocks, snapshot_place};
use disk_core::{Disk, Failed};
use std::alloc::Global;

/// The bytes on the disk of the blocks that are read in one call.
const BLOCKS_BYTES: usize = ROW_BYTES * (BLOCKS_CONTENT / BLOCK_CONTENT);

// Reads the content of a snapshot from so many pieces on into the front of a buffer, a piece or what
// is left, and tells how many bytes these are.
fn read_blocks<D: Disk>(
    disk: &mut D,
    kept: Kept,
    from: u64,
    into: &mut [u8; BLOCKS_CONTENT],
) -> Result<usize, Failed>
    requires sized { IsSnapshotSize kept.rows kept.bytes }
    requires from { BLOCKS_CONTENT * from < kept.bytes }
    ensures count { IfOk result (λ count.
        count ≡ min BLOCKS_CONTENT (kept.bytes - BLOCKS_CONTENT * from)) }
    ensures content { WhereTold (D.reads disk.old) (λ bytes.
        EndsWithSnapshot kept.rows kept.bytes bytes → IfOk result (λ count. take count into.new
        ≡ take count (drop (BLOCKS_CONTENT * from)
        (snapshot_content kept.rows kept.bytes bytes)))) }
    ensures unmoved { IsUnmoved D.Disk disk.old disk.new }
    ensures cause { CountsFault (D.faults disk.old) (D.faults disk.new) result }
{
    let left = kept.bytes - BLOCKS_CONTENT as u64 * from;
    let count = left.min(BLOCKS_CONTENT as u64) as usize;
    let size = ROW_BYTES * blocks_for(count as u64) as usize;
    let place = snapshot_place(kept.rows) + ROW_BYTES as u64 + BLOCKS_BYTES as u64 * from;
    let mut blocks = [0; BLOCKS_BYTES];
    let part = &mut blocks[..size];
    disk.read_at(place, part)?;
    content_of_blocks(part, &mut into[..count]);
    Ok(count)
}

// Appends a piece of a snapshot's content, or what is left of it.
fn read_piece<D: Disk>(
    disk: &mut D,
    kept: Kept,
    from: u64,
    content: &mut Vec<u8>,
) -> Result<(), MountError>
    requires sized { IsSnapshotSize kept.rows kept.bytes }
    requires from { BLOCKS_CONTENT * from < kept.bytes }
    ensures content { WhereTold (D.reads disk.old) (λ bytes.
        EndsWithSnapshot kept.rows kept.bytes bytes → OnOk result (content.new.items
        ≡ content.old.items ++ take (min BLOCKS_CONTENT (kept.bytes - BLOCKS_CONTENT * from))
        (drop (BLOCKS_CONTENT * from) (snapshot_content kept.rows kept.bytes bytes)))) }
    ensures unmoved { IsUnmoved D.Disk disk.old disk.new }
    ensures cause { CountsReading (D.faults disk.old) (D.faults disk.new) result }
    ensures passing { IfErr result IsPassing }
{
    let mut buffer = [0; BLOCKS_CONTENT];
    let Ok(count) = read_blocks(disk, kept, from, &mut buffer) else {
        return Err(MountError::DiskFault);
    };
    if content.extend_from_slice(&buffer[..count]).is_err() {
        return Err(MountError::NoMemory);
    }
    Ok(())
}

// How many calls read so many bytes of content.
fn calls_for(bytes: u64) -> u64
    requires { bytes ≤ MAX_CONTENT }
    ensures { result ≡ calls_for bytes }
{
    (bytes + (BLOCKS_CONTENT as u64 - 1)) / BLOCKS_CONTENT as u64
}

/// The content of a snapshot. Its memory is taken first.
pub(crate) fn read_content<D: Disk>(
    alloc: Global,
    disk: &mut D,
    kept: Kept,
) -> Result<Vec<u8>, MountError>
    requires sized { IsSnapshotSize kept.rows kept.bytes }
    ensures content { WhereTold (D.reads disk.old) (λ bytes.
        EndsWithSnapshot kept.rows kept.bytes bytes → IfOk result (λ content. content.items
        ≡ snapshot_content kept.rows kept.bytes bytes)) }
    ensures unmoved { IsUnmoved D.Disk disk.old disk.new }
    ensures cause { CountsReading (D.faults disk.old) (D.faults disk.new) result }
    ensures passing { IfErr result IsPassing }
{
    let Ok(mut content) = Vec::with_capacity(alloc, kept.bytes as usize) else {
        return Err(MountError::NoMemory);
    };
    for from in 0..calls_for(kept.bytes) {
        read_piece(disk, kept, from, &mut content)?;
    }
    Ok(content)
}
