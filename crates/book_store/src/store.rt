use book_core::{Book, NoMemory, Rows};
use book_journal::Journal;
use book_words::Entry;
use disk_core::Disk;
use std::alloc::Global;

/// A book on a disk.
#[derive(Drop)]
pub struct Store<D: Disk> {
    pub(crate) journal: Journal<D>,
    pub(crate) held: u32,
    pub(crate) book: Book,
    pub(crate) alloc: Global,
}

impl<D: Disk> Store<D> {
    ghost use Rattle.std.specs.Prelude.{◌≡◌, ◌↔◌, ◌≤◌, IsTrue, length, OnOk};
    ghost use Rattle.book_words.specs.Soundness.{IsSound as IsSoundBook};
    ghost use Rattle.book_core.specs.View.{entry_numbered};
    ghost use Rattle.book_store.specs.Stores.{disk_of, journal_of, book_of, entries_of, limit_of, spare_of, held_of, Hangs, HasBook, HangsWith, IsSound};
    ghost use Rattle.book_words.specs.declared.act.Entry.{Entry as Entered};

    /// A store over a journal and the book whose rows it has, all of them held by the disk.
    pub fn new(alloc: Global, journal: Journal<D>, book: Book) -> Store<D>
        ensures journal { journal_of result ≡ journal }
        ensures book { book_of result ≡ book }
        ensures held { held_of result ≡ length book.entries }
    {
        Store {
            journal,
            held: book.len(),
            book,
            alloc,
        }
    }

    /// The book, to be read.
    pub fn book(&self) -> &Book
        ensures { result.now ≡ book_of self.now }
    {
        &self.book
    }

    /// The number of rows.
    pub fn len(&self) -> u32
        ensures { result ≡ length (entries_of self.now) }
    {
        self.book.len()
    }

    /// How many rows the disk held as it was mounted.
    pub fn held(&self) -> u32
        ensures { result ≡ held_of self.now }
    {
        self.held
    }

    /// The entry of a number; `None` exactly where the number isn't 1 to the number of rows.
    pub fn entry(&self, number: u32) -> Option<Entry>
        ensures { result ≡ entry_numbered (entries_of self.now) number }
    {
        self.book.entry(number)
    }

    /// Whether a write failed so late that a crash may leave its entry or not. The next act settles
    /// that first.
    pub fn hanging(&self) -> bool
        ensures { IsTrue result ↔ Hangs self.now }
    {
        self.journal.hanging()
    }

    /// Takes room for `more` further acts: so many weighings then find memory. The disk isn't
    /// touched.
    pub fn reserve(&mut self, more: u32) -> Result<(), NoMemory>
        ensures ok { OnOk result (more ≤ spare_of self.new) }
        ensures spare { spare_of self.old ≤ spare_of self.new }
        ensures entries { entries_of self.new ≡ entries_of self.old }
        ensures limit { limit_of self.new ≡ limit_of self.old }
        ensures held { held_of self.new ≡ held_of self.old }
        ensures disk { disk_of self.new ≡ disk_of self.old }
        ensures hangs { Hangs self.new ↔ Hangs self.old }
        ensures has { HasBook D.Disk self.old → HasBook D.Disk self.new }
        ensures hung { (entry : Entered) → HangsWith D.Disk self.new entry
            → HangsWith D.Disk self.old entry }
        ensures sound { IsSound D.Disk self.old → IsSound D.Disk self.new }
    {
        self.book.reserve(more)?;
        Ok(())
    }

    /// The disk and the rows. The rows are legal, their piles add up, and each verdict stays.
    pub fn close(self) -> (D, Rows)
        ensures disk { result.0 ≡ disk_of self }
        ensures rows { result.1 ≡ entries_of self }
        ensures sound { IsSoundBook result.1 }
    {
        (self.journal.give_back(), self.book.rows())
    }
}
