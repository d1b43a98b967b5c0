ghost use Rattle.std.specs.Prelude.{◌≡◌, ◌↔◌, ◌≤◌, IsTrue, Some, None, if◌then◌else◌, MatchOption, IfOk, IfErr, length, take};
ghost use Rattle.hall_limits.specs.declared.TheConstants.{MAX_ROWS};
ghost use Rattle.device_facts.specs.Prefix.{IsPrefixOf};
ghost use Rattle.disk_core.specs.Disk.{WhereTold};
ghost use Rattle.disk_core.specs.Devices.{IsUnmoved};
ghost use Rattle.book_words.specs.Answers.{IsLegal};
ghost use Rattle.book_snapshot.specs.DenseRows.{dense, IsRow};
ghost use Rattle.book_journal.specs.Ends.{IsSized};
ghost use Rattle.book_journal.specs.Mounting.{IsSnapshotOf};
ghost use Rattle.book_mount.specs.Opening.{CountsReading};
ghost use Rattle.book_mount.specs.Mounting.{IsPassing};
ghost use Rattle.book_audit.specs.Beside.{IsBeside, IsAgreed, AgreesAll, SnapshotStands};

use crate::content::read_content;
use crate::types::Beside;
use book_core::Book;
use book_journal::{Kept, ROW_BYTES};
use book_mount::MountError;
use book_snapshot::{Piece, read_one};
use disk_core::Disk;
use row_format::{lawful_entries_are_allowed, write_row};
use std::alloc::Global;

/// How far a snapshot agrees with a book.
#[derive(Clone, Copy)]
struct Agreed {
    // How many rows are the same.
    rows: u32,
    // How many bytes of the content these are.
    bytes: usize,
}

// Whether two rows are the same.
fn is_same(row: &[u8; ROW_BYTES], other: &[u8; ROW_BYTES]) -> bool
    ensures { IsTrue result ↔ (row.now ≡ other.now) }
{
    *row == *other
}

// A number of bytes, where the row is the same.
fn where_same(same: bool, taken: usize) -> Option<usize>
    ensures { result ≡ (if same then Some taken else None) }
{
    if same { Some(taken) } else { None }
}

// How many bytes the dense form of the row of this number takes, where content begins with it.
fn form_at(content: &[u8], row: &[u8; ROW_BYTES], number: u32) -> Option<usize>
    requires { IsRow ROW_BYTES number row.now }
    ensures { MatchOption result (¬ IsPrefixOf (dense row.now) content.now)
        (λ taken. (taken ≤ length content.now) × (take taken content.now ≡ dense row.now)) }
{
    match read_one::<ROW_BYTES>(content, number) {
        Piece::Row { row: other, taken } => where_same(is_same(&other, row), taken),
        Piece::More | Piece::Fault => None,
    }
}

// How far the content of a snapshot that says it holds so many rows agrees with a book.
fn agree(content: &[u8], says: u32, book: &Book) -> Agreed
    requires legal { IsLegal book.now.entries }
    ensures { IsAgreed book.now.entries says content.now result }
{
    lawful_entries_are_allowed();
    let most = says.min(book.len());
    let mut place = 0;
    for before in 0..most {
        let number = before + 1;
        let entry = book.entry(number).unwrap();
        let row = write_row(&entry, number);
        let Some(taken) = form_at(content.split_at(place).1, &row, number) else {
            return Agreed {
                rows: before,
                bytes: place,
            };
        };
        place += taken;
    }
    Agreed {
        rows: most,
        bytes: place,
    }
}

// Whether a snapshot that says it holds so many rows, and whose content has so many bytes, agrees to
// its end with a book that has so many rows.
fn agrees_all(agreed: Agreed, says: u32, rows: u32, size: usize) -> bool
    ensures { IsTrue result ↔ AgreesAll agreed says rows size }
{
    agreed.rows == says && says == rows && agreed.bytes == size
}

// How a snapshot that says it holds so many rows, and has this content, compares with a book.
fn compare(content: &[u8], says: u32, book: &Book) -> Beside
    requires legal { IsLegal book.now.entries }
    requires few { length book.now.entries ≤ MAX_ROWS }
    ensures { IsBeside book.now.entries says content.now result }
{
    let agreed = agree(content, says, book);
    if agrees_all(agreed, says, book.len(), content.len()) {
        return Beside::Same;
    }
    Beside::Differs {
        row: agreed.rows + 1,
        rows: says,
    }
}

/// How the snapshot that fits a disk, if one does, compares with a book.
pub(crate) fn compare_snapshot<D: Disk>(
    alloc: Global,
    disk: &mut D,
    kept: Option<Kept>,
    book: &Book,
) -> Result<Beside, MountError>
    requires legal { IsLegal book.now.entries }
    requires sized { IsSized kept }
    ensures beside { WhereTold (D.reads disk.old) (λ bytes. IsSnapshotOf bytes kept →
        IfOk result (SnapshotStands book.now.entries kept bytes)) }
    ensures unmoved { IsUnmoved D.Disk disk.old disk.new }
    ensures cause { CountsReading (D.faults disk.old) (D.faults disk.new) result }
    ensures passing { IfErr result IsPassing }
{
    let Some(kept) = kept else {
        return Ok(Beside::None);
    };
    let content = read_content(alloc, disk, kept)?;
    Ok(compare(&content, kept.rows, book))
}
