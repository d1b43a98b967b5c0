ghost use Rattle.std.specs.Prelude.{◌≡◌, ◌+◌, ◌-◌, ◌*◌, ◌≤◌, [], ◌∷◌, ℕ, List, Option, Some, OnOk, length};
ghost use Rattle.disk_core.specs.Disk.{WhereTold};
ghost use Rattle.book_journal.specs.Rows.{gate_behind};
ghost use Rattle.book_journal.specs.Journal.{disk_of, count_of};
ghost use Rattle.book_mount.specs.Opening.{HasRead, ReadsOn, Grows, CountsReading, OnlyRead, slot_row, slots_from};

use crate::replay::replay_row;
use crate::types::MountError;
use book_core::Book;
use book_journal::{Journal, ROW_BYTES};
use disk_core::Disk;

// Enters the entry of the next row, which stands in a slot.
fn read_slot<D: Disk>(
    journal: &mut Journal<D>,
    number: u32,
    book: &mut Book,
) -> Result<(), MountError>
    requires next { number ≡ length book.old.entries + 1 }
    requires last { number ≤ count_of journal.old }
    ensures reads { WhereTold (D.reads (disk_of journal.old)) (λ bytes.
        gate_behind (count_of journal.old) ≤ length bytes →
        (rows left : List (Option (List ℕ))) →
        HasRead rows book.old.entries (Some (slot_row number bytes) ∷ left) →
        ReadsOn rows book.new.entries left result) }
    ensures count { OnOk result (length book.new.entries ≡ number) }
    ensures grows { Grows book.old book.new }
    ensures read { OnlyRead D.Disk journal.old journal.new }
    ensures cause { CountsReading (D.faults (disk_of journal.old)) (D.faults (disk_of journal.new))
        result }
    ensures asked { D.asked (disk_of journal.new) ≤ D.asked (disk_of journal.old) + ROW_BYTES }
{
    let Ok(row) = journal.row(number) else {
        return Err(MountError::DiskFault);
    };
    replay_row(&row, number, book)?;
    Ok(())
}

/// Enters the entries of the rows in slots behind those that the book has.
pub(crate) fn read_slots<D: Disk>(
    journal: &mut Journal<D>,
    book: &mut Book,
) -> Result<(), MountError>
    requires { length book.old.entries ≤ count_of journal.old }
    ensures reads { WhereTold (D.reads (disk_of journal.old)) (λ bytes.
        gate_behind (count_of journal.old) ≤ length bytes →
        (rows : List (Option (List ℕ))) →
        HasRead rows book.old.entries (slots_from (count_of journal.old - length book.old.entries)
        (length book.old.entries + 1) bytes) →
        ReadsOn rows book.new.entries [] result) }
    ensures count { OnOk result (length book.new.entries ≡ count_of journal.old) }
    ensures grows { Grows book.old book.new }
    ensures read { OnlyRead D.Disk journal.old journal.new }
    ensures cause { CountsReading (D.faults (disk_of journal.old)) (D.faults (disk_of journal.new))
        result }
    ensures asked { D.asked (disk_of journal.new) ≤ D.asked (disk_of journal.old)
        + ROW_BYTES * (count_of journal.old - length book.old.entries) }
{
    let first = book.len();
    let count = journal.count();
    for before in first..count {
        read_slot(journal, before + 1, book)?;
    }
    Ok(())
}
