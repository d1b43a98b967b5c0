ghost use Rattle.std.specs.Prelude.{◌≡◌, ◌≢◌, ◌+◌, ◌*◌, is_some, if◌then◌else◌, ◌<◌, ◌≤◌, ℕ, List, [], Some, MatchOption, MatchResult, IfOk, OnOk, OnErr, length, slice_index};
ghost use Rattle.device_facts.specs.Count.{CountsFault};
ghost use Rattle.device_facts.specs.Known.{TellsAsBefore};
ghost use Rattle.disk_core.specs.Disk.{WhereTold, Only};
ghost use Rattle.disk_core.specs.Devices.{IsUnmoved, LeavesOnly};
ghost use Rattle.book_journal.specs.Rows.{HasHeader, FirstDiffersAt, Recovers, mark_of};
ghost use Rattle.book_journal.specs.Mounting.{new_journal, FindsJournal, rows_before, opening_cost, AsksFew};
ghost use Rattle.book_journal.specs.Ends.{IsSized};
ghost use Rattle.book_journal.specs.Scanning.{IsFront};

use crate::closing::close_behind;
use crate::header::new_journal;
use crate::layout::{CLOSED, MAX_SLOTS, NEW_BYTES};
use crate::settle::settle;
use crate::slots::{FEW_SLOTS, PIECE_SLOTS, count_rows};
use crate::snapshots::find_snapshot;
use crate::types::Found;
use book_snapshot::{Kept, ROW_BYTES};
use disk_core::{Disk, Failed};
use hall_limits::MAX_ROWS;

/// Makes a journal without rows, on a disk that has no room for a row.
pub(crate) fn create<D: Disk>(disk: &mut D) -> Result<(), Failed>
    ensures reads { WhereTold (D.reads disk.old) (λ bytes. length bytes ≤ NEW_BYTES → OnOk result
        ((D.reads disk.new ≡ Some new_journal) × Only new_journal (D.image disk.new))) }
    ensures moments { WhereTold (D.reads disk.old) (λ bytes. Only bytes (D.image disk.old) →
        length bytes ≤ NEW_BYTES → LeavesOnly D.Disk disk.old disk.new (λ c. Recovers c [])) }
    ensures tells { TellsAsBefore (D.reads disk.old) (D.reads disk.new) }
    ensures cause { CountsFault (D.faults disk.old) (D.faults disk.new) result }
    ensures asked { D.asked disk.new ≡ D.asked disk.old }
{
    settle(disk, 0, &new_journal())?;
    Ok(())
}

/// Finds the snapshot and the rows of a disk of that many bytes that begins with the header and
/// this mark, and closes the gate behind them.
pub(crate) fn scan<D: Disk>(disk: &mut D, size: u64, mark: u8) -> Result<Found, Failed>
    requires { WhereTold (D.reads disk.old) (IsFront size mark) }
    ensures most { IfOk result (λ found. found.count ≤ MAX_SLOTS) }
    ensures sized { IfOk result (λ found. IsSized found.kept) }
    ensures finds { WhereTold (D.reads disk.old) (λ bytes. Only bytes (D.image disk.old) →
        IfOk result (λ found.
        FindsJournal D.Disk bytes found.kept found.count found.marked disk.new)) }
    ensures moments { WhereTold (D.reads disk.old) (λ bytes. Only bytes (D.image disk.old) →
        (rows : List (List ℕ)) → Recovers bytes rows → length rows ≤ MAX_ROWS →
        LeavesOnly D.Disk disk.old disk.new (λ c. Recovers c rows)) }
    ensures full { IfOk result (λ found.
        MAX_ROWS < found.count → IsUnmoved D.Disk disk.old disk.new) }
    ensures tells { TellsAsBefore (D.reads disk.old) (D.reads disk.new) }
    ensures cause { CountsFault (D.faults disk.old) (D.faults disk.new) result }
    ensures asked { IfOk result (λ found.
        D.asked disk.new + ROW_BYTES ≤ D.asked disk.old + opening_cost found.kept found.count) }
    ensures asked_failed { WhereTold (D.reads disk.old) (λ bytes.
        OnErr result (AsksFew bytes (D.asked disk.old) (D.asked disk.new + ROW_BYTES))) }
{
    let kept = find_snapshot(disk, size, mark)?;
    let first = rows_before(&kept);
    let count = count_rows(disk, size, first, piece_slots(&kept))?;
    close_behind(disk, size, count)?;
    Ok(Found {
        count,
        marked: mark != CLOSED,
        kept,
    })
}

// How many rows a snapshot holds.
fn rows_before(kept: &Option<Kept>) -> u32
    ensures { result ≡ rows_before kept.now }
{
    match kept {
        Some(kept) => kept.rows,
        None => 0,
    }
}

// How many slots are read in one call.
fn piece_slots(kept: &Option<Kept>) -> usize
    ensures { result ≡ (if is_some kept.now then FEW_SLOTS else PIECE_SLOTS) }
{
    if kept.is_some() {
        FEW_SLOTS
    } else {
        PIECE_SLOTS
    }
}
