ghost use Rattle.std.specs.Prelude.{◌≡◌, ◌⊎◌, ◌+◌, ◌*◌, ◌<◌, ◌≤◌, ℕ, List, IfOk, IfErr, OnErr, IsErr, MatchResult, length};
ghost use Rattle.device_facts.specs.Known.{TellsAsBefore};
ghost use Rattle.disk_core.specs.Disk.{WhereTold, Only};
ghost use Rattle.disk_core.specs.Devices.{IsUnmoved, LeavesOnly};
ghost use Rattle.book_journal.specs.Rows.{Recovers};
ghost use Rattle.book_journal.specs.Ends.{IsSized};
ghost use Rattle.book_journal.specs.Mounting.{IsMounted, IsCauseOf, KeepsFromSync, opening_cost, AsksFew};

use crate::header::difference;
use crate::journal::Journal;
use crate::layout::{MAX_SLOTS, NEW_BYTES};
use crate::scan::{create, scan};
use crate::types::{Found, JournalFault, JournalRefused};
use book_snapshot::{MARK, ROW_BYTES};
use disk_core::Disk;
use hall_limits::MAX_ROWS;

const EMPTY: Found = Found {
    count: 0,
    marked: false,
    kept: None,
};

// Opens a disk whose bytes are stable.
fn open<D: Disk>(disk: &mut D) -> Result<Found, JournalFault>
    ensures most { IfOk result (λ found. found.count ≤ MAX_SLOTS) }
    ensures sized { IfOk result (λ found. IsSized found.kept) }
    ensures mounted { WhereTold (D.reads disk.old) (λ bytes. Only bytes (D.image disk.old) →
        IfOk result (λ found.
        IsMounted D.Disk bytes found.kept found.count found.marked disk.new)) }
    ensures moments { WhereTold (D.reads disk.old) (λ bytes. Only bytes (D.image disk.old) →
        (rows : List (List ℕ)) → Recovers bytes rows → length rows ≤ MAX_ROWS →
        LeavesOnly D.Disk disk.old disk.new (λ c. Recovers c rows)) }
    ensures full { IfOk result (λ found.
        MAX_ROWS < found.count → IsUnmoved D.Disk disk.old disk.new) }
    ensures tells { TellsAsBefore (D.reads disk.old) (D.reads disk.new) }
    ensures cause { MatchResult result (λ _. D.faults disk.new ≡ D.faults disk.old)
        (λ why. IsCauseOf D.Disk why disk.old disk.new) }
    ensures asked { IfOk result (λ found.
        D.asked disk.new ≤ D.asked disk.old + opening_cost found.kept found.count) }
    ensures asked_refused { WhereTold (D.reads disk.old) (λ bytes.
        OnErr result (AsksFew bytes (D.asked disk.old) (D.asked disk.new))) }
{
    let size = disk.len()?;
    if size < ROW_BYTES as u64 {
        create(disk)?;
        return Ok(EMPTY);
    }
    let mut front = [0; ROW_BYTES];
    disk.read_at(0, &mut front)?;
    let Some(place) = difference(&front) else {
        let found = scan(disk, size, front[MARK])?;
        return Ok(found);
    };
    if size > NEW_BYTES as u64 {
        return Err(JournalFault::NotJournal {
            place: place as u64,
        });
    }
    create(disk)?;
    Ok(EMPTY)
}

// Makes what a disk reads stable, and opens it.
fn start<D: Disk>(disk: &mut D) -> Result<Found, JournalFault>
    ensures most { IfOk result (λ found. found.count ≤ MAX_SLOTS) }
    ensures sized { IfOk result (λ found. IsSized found.kept) }
    ensures mounted { WhereTold (D.reads disk.old) (λ bytes.
        IfOk result (λ found.
        IsMounted D.Disk bytes found.kept found.count found.marked disk.new)) }
    ensures moments { WhereTold (D.reads disk.old) (λ bytes.
        (rows : List (List ℕ)) → Recovers bytes rows → length rows ≤ MAX_ROWS →
        KeepsFromSync D.Disk disk.old disk.new (λ c. Recovers c rows)
        ⊎ (IsErr result × IsUnmoved D.Disk disk.old disk.new)) }
    ensures full { IfOk result (λ found.
        MAX_ROWS < found.count → IsUnmoved D.Disk disk.old disk.new) }
    ensures tells { TellsAsBefore (D.reads disk.old) (D.reads disk.new) }
    ensures cause { MatchResult result (λ _. D.faults disk.new ≡ D.faults disk.old)
        (λ why. IsCauseOf D.Disk why disk.old disk.new) }
    ensures asked { IfOk result (λ found.
        D.asked disk.new ≤ D.asked disk.old + opening_cost found.kept found.count) }
    ensures asked_refused { WhereTold (D.reads disk.old) (λ bytes.
        OnErr result (AsksFew bytes (D.asked disk.old) (D.asked disk.new))) }
{
    disk.sync()?;
    let found = open(disk)?;
    Ok(found)
}

impl<D: Disk> Journal<D> {
    ghost use Rattle.book_journal.specs.Journal.{disk_of, count_of, kept_of, Hangs, IsSound, HasRows};
    ghost use Rattle.book_journal.specs.Opening.{HasMounted, KeepsRecovered};

    /// Mounts a disk as a journal, or hands it back with the reason. The disk is synced first. A
    /// disk of at most 97 bytes that doesn't begin with the header is made a journal without rows;
    /// a longer one isn't a journal. Where a snapshot fits, its rows come first. The rows in slots
    /// are those behind it up to the first slot that is cut or closed, and the gate behind them is
    /// closed. At most 1 000 001 are counted; a journal with so many is full, and its disk holds
    /// perhaps more.
    pub fn mount(disk: D) -> Result<Journal<D>, JournalRefused<D>>
        // What it finds on the disk, and what the disk reads then.
        ensures mounted { WhereTold (D.reads disk) (λ bytes.
            IfOk result (HasMounted D.Disk bytes)) }
        ensures most { IfOk result (λ journal. count_of journal ≤ MAX_SLOTS) }
        ensures sized { IfOk result (λ journal. IsSized (kept_of journal)) }
        ensures calm { IfOk result (λ journal. ¬ Hangs journal) }
        ensures full { IfOk result (λ journal. MAX_ROWS < count_of journal →
            IsUnmoved D.Disk disk (disk_of journal)) }

        // It has the rows that the disk recovers, and a crash from its first good sync on leaves
        // these, whatever it answers.
        ensures rows { WhereTold (D.reads disk) (λ bytes.
            (rows : List (List ℕ)) → Recovers bytes rows → length rows ≤ MAX_ROWS →
            KeepsRecovered D.Disk disk result rows) }
        ensures sound { IfOk result (λ journal.
            count_of journal ≤ MAX_ROWS → IsSound D.Disk journal) }

        // It refuses a disk that isn't a journal, and otherwise only where the disk failed.
        ensures cause { MatchResult result (λ journal. D.faults (disk_of journal) ≡ D.faults disk)
            (λ refused. IsCauseOf D.Disk refused.why disk refused.disk) }
        ensures asked { IfOk result (λ journal. D.asked (disk_of journal) ≤
            D.asked disk + opening_cost (kept_of journal) (count_of journal)) }
        ensures asked_refused { WhereTold (D.reads disk) (λ bytes. IfErr result (λ refused.
            AsksFew bytes (D.asked disk) (D.asked refused.disk))) }
        ensures tells { MatchResult result
            (λ journal. TellsAsBefore (D.reads disk) (D.reads (disk_of journal)))
            (λ refused. TellsAsBefore (D.reads disk) (D.reads refused.disk)) }
    {
        let mut disk = disk;
        match start(&mut disk) {
            Ok(found) => Ok(Journal {
                disk,
                count: found.count,
                hanging: false,
                marked: found.marked,
                kept: found.kept,
            }),
            Err(why) => Err(JournalRefused { disk, why }),
        }
    }
}
