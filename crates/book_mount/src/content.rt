ghost use Rattle.std.specs.Prelude.{◌≡◌, ◌+◌, ◌-◌, ◌*◌, ◌<◌, ◌≤◌, ◌++◌, [], ◌∷◌, ℕ, List, Option, Some, min, suc, IfOk, IfErr, OnOk, MatchResult, length, take, drop};
ghost use Rattle.hall_limits.specs.declared.TheConstants.{MAX_ROWS};
ghost use Rattle.disk_core.specs.Disk.{WhereTold};
ghost use Rattle.book_snapshot.specs.Blocks.{EndsWithSnapshot, IsSnapshotSize, snapshot_content};
ghost use Rattle.book_journal.specs.Ends.{IsSized};
ghost use Rattle.book_journal.specs.Mounting.{rows_before};
ghost use Rattle.book_journal.specs.Journal.{disk_of, count_of, kept_of};
ghost use Rattle.book_mount.specs.Listing.{content_rows, snapshot_rows};
ghost use Rattle.book_mount.specs.Mounting.{IsPassing, calls_for};
ghost use Rattle.book_mount.specs.Opening.{HasRead, Stops, ReadsOn, Grows, IsOfRow, CountsReading, OnlyRead, StandsAtEnd, content_cost};

use crate::mounting::CALL_BYTES;
use crate::replay::replay_row;
use crate::types::MountError;
use book_core::Book;
use book_journal::{BLOCKS_CONTENT, Journal, Kept, ROW_BYTES};
use book_snapshot::{MAX_CONTENT, Piece, read_one};
use disk_core::Disk;
use hall_limits::MAX_ROWS;
use std::alloc::Global;

// Enters the entry of the row at the front of content, and tells how many bytes its form takes.
fn replay_form(bytes: &[u8], number: u32, book: &mut Book) -> Result<usize, MountError>
    requires { number ≡ length book.old.entries + 1 }
    ensures reads { (rows left : List (Option (List ℕ))) (more : ℕ) →
        HasRead rows book.old.entries (content_rows (suc more) number bytes.now ++ left) →
        MatchResult result (λ taken. HasRead rows book.new.entries
        (content_rows more (number + 1) (drop taken bytes.now) ++ left)) (Stops rows) }
    ensures within { IfOk result (λ taken. taken ≤ length bytes.now) }
    ensures count { OnOk result (length book.new.entries ≡ number) }
    ensures grows { Grows book.old book.new }
    ensures fault { IfErr result IsOfRow }
{
    match read_one::<ROW_BYTES>(bytes, number) {
        Piece::Row { row, taken } => {
            replay_row(&row, number, book)?;
            Ok(taken)
        }
        _ => Err(MountError::Damaged { row: number }),
    }
}

// Enters the entries of so many rows, which are all that content has.
fn replay_content(content: &[u8], rows: u32, book: &mut Book) -> Result<(), MountError>
    requires few { rows ≤ MAX_ROWS }
    requires empty { book.old.entries ≡ [] }
    ensures reads { (listed left : List (Option (List ℕ))) →
        HasRead listed [] (content_rows rows 1 content.now ++ left) →
        ReadsOn listed book.new.entries left result }
    ensures count { OnOk result (length book.new.entries ≡ rows) }
    ensures grows { Grows book.old book.new }
    ensures fault { IfErr result IsOfRow }
{
    let mut place = 0;
    for before in 0..rows {
        place += replay_form(content.split_at(place).1, before + 1, book)?;
    }
    if place < content.len() {
        return Err(MountError::Damaged { row: rows + 1 });
    }
    Ok(())
}

// How many calls read so many bytes of content.
fn calls_for(bytes: u64) -> u64
    requires { bytes ≤ MAX_CONTENT }
    ensures { result ≡ calls_for bytes }
{
    (bytes + (BLOCKS_CONTENT as u64 - 1)) / BLOCKS_CONTENT as u64
}

// Appends a piece of the snapshot's content, or what is left of it.
fn read_piece<D: Disk>(
    journal: &mut Journal<D>,
    kept: Kept,
    from: u64,
    content: &mut Vec<u8>,
) -> Result<(), MountError>
    requires kept { kept_of journal.old ≡ Some kept }
    requires sized { IsSnapshotSize kept.rows kept.bytes }
    requires from { BLOCKS_CONTENT * from < kept.bytes }
    ensures content { WhereTold (D.reads (disk_of journal.old)) (λ bytes.
        EndsWithSnapshot kept.rows kept.bytes bytes → OnOk result (content.new.items
        ≡ content.old.items ++ take (min BLOCKS_CONTENT (kept.bytes - BLOCKS_CONTENT * from))
        (drop (BLOCKS_CONTENT * from) (snapshot_content kept.rows kept.bytes bytes)))) }
    ensures read { OnlyRead D.Disk journal.old journal.new }
    ensures cause { CountsReading (D.faults (disk_of journal.old)) (D.faults (disk_of journal.new))
        result }
    ensures passing { IfErr result IsPassing }
    ensures asked { D.asked (disk_of journal.new) ≤ D.asked (disk_of journal.old) + CALL_BYTES }
{
    let mut buffer = [0; BLOCKS_CONTENT];
    if journal.blocks(from, &mut buffer).is_err() {
        return Err(MountError::DiskFault);
    }
    let left = kept.bytes - BLOCKS_CONTENT as u64 * from;
    let count = left.min(BLOCKS_CONTENT as u64) as usize;
    if content.extend_from_slice(&buffer[..count]).is_err() {
        return Err(MountError::NoMemory);
    }
    Ok(())
}

// The content of the snapshot. Its memory is taken first.
fn read_content<D: Disk>(
    alloc: Global,
    journal: &mut Journal<D>,
    kept: Kept,
) -> Result<Vec<u8>, MountError>
    requires kept { kept_of journal.old ≡ Some kept }
    requires sized { IsSnapshotSize kept.rows kept.bytes }
    ensures content { WhereTold (D.reads (disk_of journal.old)) (λ bytes.
        EndsWithSnapshot kept.rows kept.bytes bytes → IfOk result (λ content. content.items
        ≡ snapshot_content kept.rows kept.bytes bytes)) }
    ensures read { OnlyRead D.Disk journal.old journal.new }
    ensures cause { CountsReading (D.faults (disk_of journal.old)) (D.faults (disk_of journal.new))
        result }
    ensures passing { IfErr result IsPassing }
    ensures asked { D.asked (disk_of journal.new)
        ≤ D.asked (disk_of journal.old) + CALL_BYTES * calls_for kept.bytes }
{
    let Ok(mut content) = Vec::with_capacity(alloc, kept.bytes as usize) else {
        return Err(MountError::NoMemory);
    };
    for from in 0..calls_for(kept.bytes) {
        read_piece(journal, kept, from, &mut content)?;
    }
    Ok(content)
}

/// Enters the entries of the snapshot's rows, where one fitted.
pub(crate) fn read_snapshot<D: Disk>(
    alloc: Global,
    journal: &mut Journal<D>,
    book: &mut Book,
) -> Result<(), MountError>
    requires empty { book.old.entries ≡ [] }
    requires sized { IsSized (kept_of journal.old) }
    ensures reads { WhereTold (D.reads (disk_of journal.old)) (λ bytes.
        StandsAtEnd (kept_of journal.old) bytes →
        rows_before (kept_of journal.old) ≤ count_of journal.old →
        (rows left : List (Option (List ℕ))) →
        HasRead rows [] (snapshot_rows (kept_of journal.old) bytes ++ left) →
        ReadsOn rows book.new.entries left result) }
    ensures count { OnOk result (length book.new.entries
        ≡ min (rows_before (kept_of journal.old)) (count_of journal.old)) }
    ensures grows { Grows book.old book.new }
    ensures read { OnlyRead D.Disk journal.old journal.new }
    ensures cause { CountsReading (D.faults (disk_of journal.old)) (D.faults (disk_of journal.new))
        result }
    ensures asked { D.asked (disk_of journal.new)
        ≤ D.asked (disk_of journal.old) + content_cost (kept_of journal.old) }
{
    let Some(kept) = journal.kept() else {
        return Ok(());
    };
    let content = read_content(alloc, journal, kept)?;
    // A journal counts the rows of its snapshot, so these are all of them.
    let rows = kept.rows.min(journal.count());
    replay_content(&content, rows, book)?;
    Ok(())
}
