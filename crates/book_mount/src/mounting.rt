ghost use Rattle.std.specs.Prelude.{◌≡◌, ◌+◌, ◌≤◌, ℕ, List, Some, length, IfOk, IfErr, MatchResult};
ghost use Rattle.hall_limits.specs.declared.TheConstants.{MAX_ROWS};
ghost use Rattle.device_facts.specs.Known.{TellsAsBefore};
ghost use Rattle.disk_core.specs.Disk.{WhereTold};
ghost use Rattle.book_words.specs.declared.act.Entry.{Entry};
ghost use Rattle.book_words.specs.Answers.{IsLegal};
ghost use Rattle.book_journal.specs.Rows.{FitsSnapshot};
ghost use Rattle.book_journal.specs.Mounting.{slots_behind};
ghost use Rattle.book_store.specs.Images.{HoldsBook};
ghost use Rattle.book_store.specs.Stores.{disk_of, entries_of, limit_of, held_of, Hangs, IsSound};
ghost use Rattle.book_mount.specs.Listing.{IsOpenedAs};
ghost use Rattle.book_mount.specs.Mounting.{IsCauseOf, KeepsHeld, ReadsMounted, opening_bytes};

use crate::opening::{cause_of, open};
use crate::types::Unmounted;
use book_journal::Journal;
use book_store::Store;
use disk_core::Disk;
use std::alloc::Global;

/// The most bytes of the header, the ends of a snapshot and the gate behind the rows that opening
/// asks of a disk where a snapshot fits.
pub(crate) const OPENING_BYTES: u64 = 4_096;

/// The most bytes that one call asks for content.
pub(crate) const CALL_BYTES: u64 = 4_096;

/// The most bytes that opening asks for each slot behind a snapshot.
pub(crate) const SLOT_BYTES: u64 = 200;

/// Opens a disk as a book that may have `limit` rows, 1 to 1 000 000, or hands it back with the
/// reason. A book that has more rows opens all the same, and takes no more.
///
/// The disk is synced first. One of at most 97 bytes without the header of a journal is made a
/// new one. Where a snapshot fits, it is read in place of its slots.
pub fn mount<D: Disk>(alloc: Global, disk: D, limit: u32) -> Result<Store<D>, Unmounted<D>>
    requires least { 1 ≤ limit }
    requires most { limit ≤ MAX_ROWS }

    // The book is the one that the disk's bytes list, and it is refused exactly where they list
    // none.
    ensures opened { WhereTold (D.reads disk) (λ bytes.
        IfOk result (λ store. IsOpenedAs bytes (entries_of store))) }
    ensures cause { MatchResult result (λ store. D.faults (disk_of store) ≡ D.faults disk)
        (λ refused. IsCauseOf D.Disk refused.why disk refused.disk) }

    // At most the gate behind the rows was closed, or a disk too short for a row was made new.
    // Where a snapshot fits, nothing is written.
    ensures reads { WhereTold (D.reads disk) (λ bytes.
        IfOk result (λ store. ReadsMounted D.Disk bytes (disk_of store))) }
    ensures unwritten { WhereTold (D.reads disk) (λ bytes. (rows size : ℕ) →
        FitsSnapshot rows size bytes → IfOk result (λ store.
        D.reads (disk_of store) ≡ Some bytes)) }

    // A disk that holds a book gives it, and a crash from the first good sync on leaves it,
    // whatever is answered.
    ensures held { WhereTold (D.reads disk) (λ bytes.
        (entries : List Entry) → HoldsBook entries bytes → IsLegal entries →
        KeepsHeld D.Disk disk entries result) }

    ensures limit { IfOk result (λ store. limit_of store ≡ limit) }
    ensures count { IfOk result (λ store. held_of store ≡ length (entries_of store)) }
    ensures calm { IfOk result (λ store. ¬ Hangs store) }
    ensures legal { IfOk result (λ store. IsLegal (entries_of store)) }
    ensures sound { IfOk result (λ store. IsSound D.Disk store) }
    ensures asked { WhereTold (D.reads disk) (λ bytes. (rows size : ℕ) →
        FitsSnapshot rows size bytes → IfOk result (λ store. D.asked (disk_of store) ≤
        D.asked disk + opening_bytes rows size (length (entries_of store)))) }
    ensures asked_refused { WhereTold (D.reads disk) (λ bytes. (rows size : ℕ) →
        FitsSnapshot rows size bytes → IfErr result (λ refused. D.asked refused.disk ≤
        D.asked disk + opening_bytes rows size (rows + slots_behind rows bytes))) }
    ensures tells { MatchResult result
        (λ store. TellsAsBefore (D.reads disk) (D.reads (disk_of store)))
        (λ refused. TellsAsBefore (D.reads disk) (D.reads refused.disk)) }
{
    match Journal::mount(disk) {
        Ok(journal) => open(alloc, journal, limit),
        Err(refused) => Err(Unmounted {
            disk: refused.disk,
            why: cause_of(refused.why),
        }),
    }
}
