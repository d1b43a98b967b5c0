ghost use Rattle.std.specs.Prelude.{◌≡◌, ◌≤◌, IfOk, OnOk, length};
ghost use Rattle.hall_limits.specs.declared.TheConstants.{MAX_ROWS};
ghost use Rattle.book_snapshot.specs.declared.layout.TheConstants.{MAX_CONTENT};
ghost use Rattle.book_words.specs.Answers.{IsLegal};
ghost use Rattle.book_store.specs.Resting.{book_content};

use crate::store::Store;
use crate::types::RestError;
use book_core::{Book, NoMemory};
use book_snapshot::{Dense, squeeze};
use disk_core::Disk;
use row_format::{lawful_entries_are_allowed, write_row};
use std::alloc::Global;

impl<D: Disk> Store<D> {
    ghost use Rattle.std.specs.Prelude.{◌≡◌, ◌↔◌, ◌≤◌, true, false, Ok, Err, length};
    ghost use Rattle.device_facts.specs.Known.{TellsAsBefore};
    ghost use Rattle.disk_core.specs.Disk.{WhereTold};
    ghost use Rattle.book_snapshot.specs.Layout.{snapshot_end};
    ghost use Rattle.book_journal.specs.Marking.{HoldsSnapshot};
    ghost use Rattle.book_store.specs.declared.types.RestError.TheVariants as error;
    ghost use Rattle.book_store.specs.Stores.{disk_of, book_of, entries_of, held_of, Hangs, HasBook, KeepsBook, ImagesHoldBook, IsSound};
    ghost use Rattle.book_store.specs.Resting.{book_content, HasNothingToKeep, HoldsOwnSnapshot, CountsRestFault};

    /// Keeps a snapshot of the book on its disk, which opening then reads in place of the slots,
    /// and says so. Where the book is empty or an entry hangs there is nothing to keep, and the
    /// disk isn't touched. The book stays as it is, and a crash at any moment leaves it.
    ///
    /// A disk that is longer than the snapshot's end is left without one, since its last bytes
    /// aren't the book's.
    pub fn rest(&mut self) -> Result<bool, RestError>
        requires sound { IsSound D.Disk self.old }
        ensures idle { (result ≡ Ok false) ↔ HasNothingToKeep self.old }
        ensures book { book_of self.new ≡ book_of self.old }
        ensures held { held_of self.new ≡ held_of self.old }
        ensures hangs { Hangs self.new ↔ Hangs self.old }

        // What a crash leaves, during the call and after it, and what the disk then reads.
        ensures keeps { HasBook D.Disk self.old → KeepsBook D.Disk self.old self.new }
        ensures images { ImagesHoldBook D.Disk self.new }
        ensures untouched { result ≡ Ok false → disk_of self.new ≡ disk_of self.old }
        ensures no_memory { result ≡ Err error.NoMemory → disk_of self.new ≡ disk_of self.old }
        ensures fits { WhereTold (D.reads (disk_of self.old)) (λ bytes.
            length bytes ≤ snapshot_end (length (entries_of self.old))
            (length (book_content (entries_of self.old)))
            → result ≡ Ok true → WhereTold (D.reads (disk_of self.new))
            (HoldsSnapshot (length (entries_of self.old)) (book_content (entries_of self.old)))) }
        ensures holds { result ≡ Ok true → HoldsOwnSnapshot D.Disk self.new }

        ensures cause { CountsRestFault (D.faults (disk_of self.old)) (D.faults (disk_of self.new))
            result }
        ensures asked { D.asked (disk_of self.new) ≡ D.asked (disk_of self.old) }
        ensures tells { TellsAsBefore (D.reads (disk_of self.old)) (D.reads (disk_of self.new)) }
        ensures sound { IsSound D.Disk self.new }
    {
        if self.book.len() == 0 || self.journal.hanging() {
            return Ok(false);
        }
        let Ok(content) = squeezed(self.alloc, &self.book) else {
            return Err(RestError::NoMemory);
        };
        match self.journal.keep(&content) {
            Ok(()) => Ok(true),
            Err(_) => Err(RestError::DiskFault),
        }
    }
}

// The dense forms of a book's rows.
fn squeezed(alloc: Global, book: &Book) -> Result<Dense, NoMemory>
    requires legal { IsLegal book.now.entries }
    requires few { length book.now.entries ≤ MAX_ROWS }
    ensures content { IfOk result (λ dense. dense ≡ book_content book.now.entries) }
    ensures least { OnOk result
        (length book.now.entries ≤ length (book_content book.now.entries)) }
    ensures most { OnOk result (length (book_content book.now.entries) ≤ MAX_CONTENT) }
{
    lawful_entries_are_allowed();
    let mut content = Dense::new(alloc);
    for before in 0..book.len() {
        let number = before + 1;
        let entry = book.entry(number).unwrap();
        squeeze(&write_row(&entry, number), &mut content)?;
    }
    Ok(content)
}
