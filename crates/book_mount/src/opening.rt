ghost use Rattle.std.specs.Prelude.{◌≡◌, ◌+◌, ◌≤◌, [], OnOk, length};
ghost use Rattle.hall_limits.specs.declared.TheConstants.{MAX_ROWS};
ghost use Rattle.disk_core.specs.Disk.{WhereTold};
ghost use Rattle.book_journal.specs.Ends.{IsSized};
ghost use Rattle.book_journal.specs.Journal.{disk_of, count_of, kept_of};
ghost use Rattle.book_mount.specs.Opening.{ReadsOn, Grows, CountsReading, OnlyRead, IsReadable, rows_there, reading_cost, Opens};
ghost use Rattle.book_mount.specs.Causes.{cause_of};

use crate::content::read_snapshot;
use crate::slots::read_slots;
use crate::types::{MountError, Unmounted};
use book_core::Book;
use book_journal::{Journal, JournalFault};
use book_store::Store;
use disk_core::Disk;
use hall_limits::MAX_ROWS;
use std::alloc::Global;

/// Why a disk that is no journal, or that failed, isn't mounted.
pub(crate) fn cause_of(fault: JournalFault) -> MountError
    ensures { result ≡ cause_of fault }
{
    match fault {
        JournalFault::Failed => MountError::DiskFault,
        JournalFault::NotJournal { place } => MountError::NotJournal { place },
    }
}

// Enters the entries of all rows of a journal.
fn read_rows<D: Disk>(
    alloc: Global,
    journal: &mut Journal<D>,
    book: &mut Book,
) -> Result<(), MountError>
    requires empty { book.old.entries ≡ [] }
    requires sized { IsSized (kept_of journal.old) }
    ensures reads { WhereTold (D.reads (disk_of journal.old)) (λ bytes.
        IsReadable (kept_of journal.old) (count_of journal.old) bytes → ReadsOn
        (rows_there (kept_of journal.old) (count_of journal.old) bytes)
        book.new.entries [] result) }
    ensures count { OnOk result (count_of journal.old ≡ length book.new.entries) }
    ensures grows { Grows book.old book.new }
    ensures read { OnlyRead D.Disk journal.old journal.new }
    ensures cause { CountsReading (D.faults (disk_of journal.old)) (D.faults (disk_of journal.new))
        result }
    ensures asked { D.asked (disk_of journal.new) ≤ D.asked (disk_of journal.old)
        + reading_cost (kept_of journal.old) (count_of journal.old) }
{
    read_snapshot(alloc, journal, book)?;
    read_slots(journal, book)?;
    Ok(())
}

/// Opens a journal as a book.
pub(crate) fn open<D: Disk>(
    alloc: Global,
    journal: Journal<D>,
    limit: u32,
) -> Result<Store<D>, Unmounted<D>>
    requires least { 1 ≤ limit }
    requires most { limit ≤ MAX_ROWS }
    requires sized { IsSized (kept_of journal) }
    ensures { Opens D.Disk journal limit result }
{
    let mut journal = journal;
    let mut book = Book::new(alloc, limit);
    match read_rows(alloc, &mut journal, &mut book) {
        Ok(()) => Ok(Store::new(alloc, journal, book)),
        Err(why) => Err(Unmounted {
            disk: journal.give_back(),
            why,
        }),
    }
}
