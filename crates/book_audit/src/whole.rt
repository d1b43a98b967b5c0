ghost use Rattle.std.specs.Prelude.{◌≡◌, ◌≤◌, [], IfOk, IfErr};
ghost use Rattle.hall_limits.specs.declared.TheConstants.{MAX_ROWS};
ghost use Rattle.disk_core.specs.Disk.{WhereTold};
ghost use Rattle.disk_core.specs.Devices.{IsUnmoved};
ghost use Rattle.book_journal.specs.Ends.{IsSized};
ghost use Rattle.book_journal.specs.Mounting.{IsSnapshotOf};
ghost use Rattle.book_mount.specs.Mounting.{IsPassing};
ghost use Rattle.book_mount.specs.Opening.{CountsReading};
ghost use Rattle.book_audit.specs.Audits.{IsAuditOf, IsUnaudited};
ghost use Rattle.book_audit.specs.Fronts.{IsBook, IsNoBook, IsUndamaged, CountsFront};

use crate::beside::compare_snapshot;
use crate::digest::fingerprint;
use crate::front::read_mark;
use crate::slots::read_slots;
use crate::snapshots::find_snapshot;
use crate::types::Audit;
use book_core::Book;
use book_journal::Kept;
use book_mount::MountError;
use disk_core::Disk;
use hall_limits::MAX_ROWS;
use std::alloc::Global;

// The snapshot that fits a disk, if one does, where the disk is that of a book.
fn find<D: Disk>(disk: &mut D) -> Result<Option<Kept>, MountError>
    ensures book { WhereTold (D.reads disk.old) (λ bytes. IfOk result (λ _. IsBook bytes)) }
    ensures found { WhereTold (D.reads disk.old) (λ bytes. IfOk result (IsSnapshotOf bytes)) }
    ensures sized { IfOk result IsSized }
    ensures refused { WhereTold (D.reads disk.old) (λ bytes. IfErr result (IsNoBook bytes)) }
    ensures undamaged { IfErr result IsUndamaged }
    ensures unmoved { IsUnmoved D.Disk disk.old disk.new }
    ensures cause { CountsFront (D.faults disk.old) (D.faults disk.new) result }
{
    let Ok(size) = disk.len() else {
        return Err(MountError::DiskFault);
    };
    let mark = read_mark(disk, size)?;
    match find_snapshot(disk, size, mark) {
        Ok(kept) => Ok(kept),
        Err(_) => Err(MountError::DiskFault),
    }
}

// Audits the slots of a disk that is that of a book, and this snapshot beside them, by an empty book.
fn audit_slots<D: Disk>(
    alloc: Global,
    disk: &mut D,
    kept: Option<Kept>,
    book: &mut Book,
    most: u32,
) -> Result<Audit, MountError>
    requires empty { book.old.entries ≡ [] }
    requires sized { IsSized kept }
    ensures found { WhereTold (D.reads disk.old) (λ bytes. IsBook bytes → IsSnapshotOf bytes kept →
        IfOk result (IsAuditOf bytes most)) }
    ensures few { IfOk result (λ found. found.rows ≤ MAX_ROWS) }
    ensures passing { IfErr result IsPassing }
    ensures unmoved { IsUnmoved D.Disk disk.old disk.new }
    ensures cause { CountsReading (D.faults disk.old) (D.faults disk.new) result }
{
    let whole = read_slots(disk, book)?;
    let beside = compare_snapshot(alloc, disk, kept, book)?;
    Ok(Audit {
        rows: book.len(),
        whole,
        beside,
        digest: fingerprint(book.entries(), most),
    })
}

/// Reads all slots of a disk and the snapshot beside them, and tells whether they agree and the
/// fingerprint of the first `most` rows. Neither is believed: the rows are those that the slots give,
/// entered one by one as the rules say, and the snapshot is compared with them byte by byte. Nothing
/// is written.
///
/// It takes the memory that opening the book takes.
pub fn audit<D: Disk>(alloc: Global, disk: &mut D, most: u32) -> Result<Audit, MountError>
    ensures found { WhereTold (D.reads disk.old) (λ bytes. IfOk result (IsAuditOf bytes most)) }
    ensures few { IfOk result (λ found. found.rows ≤ MAX_ROWS) }
    ensures refused { WhereTold (D.reads disk.old) (λ bytes. IfErr result (IsUnaudited bytes)) }
    ensures undamaged { IfErr result IsUndamaged }
    ensures unmoved { IsUnmoved D.Disk disk.old disk.new }
    ensures cause { CountsFront (D.faults disk.old) (D.faults disk.new) result }
{
    let kept = find(disk)?;
    let mut book = Book::new(alloc, MAX_ROWS);
    let found = audit_slots(alloc, disk, kept, &mut book, most);
    // (so that no way out above has to let go of a book, part by part)
    let _rows = book.rows();
    found
}
