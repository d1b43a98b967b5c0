ghost use Rattle.std.specs.Prelude.{◌≡◌, ◌≢◌, ◌+◌, ◌-◌, ◌≤◌, ℕ, IsTrue, false, None, MatchOption, IfOk, length, take, drop};
ghost use Rattle.device_facts.specs.Count.{CountsFault};
ghost use Rattle.disk_core.specs.Disk.{WhereTold};
ghost use Rattle.disk_core.specs.Devices.{IsUnmoved};
ghost use Rattle.book_snapshot.specs.Layout.{snapshot_place, snapshot_end};
ghost use Rattle.book_snapshot.specs.Blocks.{end_block, IsSnapshotSize};
ghost use Rattle.book_journal.specs.Rows.{HasHeader, mark_of};
ghost use Rattle.book_journal.specs.Mounting.{IsSnapshotOf};
ghost use Rattle.book_journal.specs.Ends.{HasTail, NoTail, IsSized};

use book_journal::{Kept, ROW_BYTES};
use book_snapshot::{HEAD, TAIL, head_block, read_tail, snapshot_end, snapshot_place};
use disk_core::{Disk, Failed};

// The mark of a journal whose snapshot counts.
const MARKED: u8 = 1;

/// Finds the snapshot that fits a disk of that many bytes, which has this mark.
pub(crate) fn find_snapshot<D: Disk>(
    disk: &mut D,
    size: u64,
    mark: u8,
) -> Result<Option<Kept>, Failed>
    ensures found { WhereTold (D.reads disk.old) (λ bytes. size ≡ length bytes → HasHeader bytes →
        mark ≡ mark_of bytes → IfOk result (IsSnapshotOf bytes)) }
    ensures none { mark ≡ 0 → IfOk result (λ kept. kept ≡ None) }
    ensures sized { IfOk result IsSized }
    ensures unmoved { IsUnmoved D.Disk disk.old disk.new }
    ensures cause { CountsFault (D.faults disk.old) (D.faults disk.new) result }
{
    if mark != MARKED || size < ROW_BYTES as u64 {
        return Ok(None);
    }
    let Some(kept) = tail_at(disk, size)? else {
        return Ok(None);
    };
    if has_head(disk, kept)? {
        return Ok(Some(kept));
    }
    Ok(None)
}

// The snapshot whose tail stands at the end of a disk of that many bytes, if it would end there.
fn tail_at<D: Disk>(disk: &mut D, size: u64) -> Result<Option<Kept>, Failed>
    requires { ROW_BYTES ≤ size }
    ensures tail { WhereTold (D.reads disk.old) (λ bytes. size ≡ length bytes →
        IfOk result (λ kept. MatchOption kept (NoTail bytes) (HasTail bytes))) }
    ensures sized { IfOk result IsSized }
    ensures unmoved { IsUnmoved D.Disk disk.old disk.new }
    ensures cause { CountsFault (D.faults disk.old) (D.faults disk.new) result }
{
    let mut block = [0; ROW_BYTES];
    disk.read_at(size - ROW_BYTES as u64, &mut block)?;
    Ok(ending_at(&block, size))
}

// The snapshot whose tail this block is, if it would end at that place.
fn ending_at(block: &[u8; ROW_BYTES], size: u64) -> Option<Kept>
    ensures { MatchOption result
        ((rows bytes : ℕ) → IsSnapshotSize rows bytes → snapshot_end rows bytes ≡ size →
        block.now ≢ end_block TAIL rows bytes)
        (λ kept. IsSnapshotSize kept.rows kept.bytes × (snapshot_end kept.rows kept.bytes ≡ size)
        × (block.now ≡ end_block TAIL kept.rows kept.bytes)) }
{
    let kept = read_tail(block)?;
    if snapshot_end(kept) == size {
        return Some(kept);
    }
    None
}

// Whether the head of a snapshot stands on a disk.
fn has_head<D: Disk>(disk: &mut D, kept: Kept) -> Result<bool, Failed>
    requires { IsSnapshotSize kept.rows kept.bytes }
    ensures yes { WhereTold (D.reads disk.old) (λ bytes.
        snapshot_place kept.rows + ROW_BYTES ≤ length bytes → IfOk result (λ has. IsTrue has →
        take ROW_BYTES (drop (snapshot_place kept.rows) bytes)
        ≡ end_block HEAD kept.rows kept.bytes)) }
    ensures no { WhereTold (D.reads disk.old) (λ bytes.
        snapshot_place kept.rows + ROW_BYTES ≤ length bytes → IfOk result (λ has. has ≡ false →
        take ROW_BYTES (drop (snapshot_place kept.rows) bytes)
        ≢ end_block HEAD kept.rows kept.bytes)) }
    ensures unmoved { IsUnmoved D.Disk disk.old disk.new }
    ensures cause { CountsFault (D.faults disk.old) (D.faults disk.new) result }
{
    let mut block = [0; ROW_BYTES];
    disk.read_at(snapshot_place(kept.rows), &mut block)?;
    let same = block == head_block(kept);
    Ok(same)
}
