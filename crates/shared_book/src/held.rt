//! The store of a session.
use crate::session::Session;
use book_store::Store;
use book_words::{Answered, Ask, AskError, Entry};
use disk_core::Disk;
use std::marker::{Model, PhantomData};

/// A store that callers of a session ask, and that each caller knows by its type alone.
pub struct HeldStore<D: Disk, N: Session> {
    store: Store<D>,
    of: PhantomData<N>,
}

impl<D: Disk, N: Session> Model for HeldStore<D, N> {
    ghost use Rattle.book_store.specs.declared.store.Store.{Store};
    ghost use Rattle.shared_book.specs.Sessions.{IsKeptSince};

    ghost Value = { Store D };

    ghost view = { λ h. h.store };

    ghost invariant = { λ h. IsKeptSince D.Disk N.Session h.store };
}

impl<D: Disk, N: Session> HeldStore<D, N> {
    ghost use Rattle.std.specs.Prelude.{◌≡◌, ◌⊎◌, ◌+◌, ◌≤◌, Err, true, length};
    ghost use Rattle.hall_limits.specs.declared.TheConstants.{MAX_ROWS};
    ghost use Rattle.device_facts.specs.Prefix.{IsPrefixOf};
    ghost use Rattle.book_words.specs.declared.caller.AskError.TheVariants as error;
    ghost use Rattle.book_words.specs.Answers.{answer, added, IsLegal};
    ghost use Rattle.book_state.specs.Known.{entry_numbered};
    ghost use Rattle.book_store.specs.Stores.{disk_of, book_of, entries_of, limit_of, Hangs, IsSound};
    ghost use Rattle.book_store.specs.Offers.{CountsDiskFault, GivesAnswer, Offers, list_behind};
    ghost use Rattle.shared_book.specs.Sessions.{Begins, IsKeptSince, weighs};

    /// Begins a session with this store.
    pub fn new(store: Store<D>) -> HeldStore<D, N>
        requires sound { IsSound D.Disk store }
        requires begins { Begins D.Disk N.Session store }
        ensures { result ≡ store }
    {
        HeldStore {
            store,
            of: PhantomData,
        }
    }

    /// The number of rows, those before the session among them.
    pub fn len(&self) -> u32
        ensures len { result ≡ length (entries_of self.now) }
        ensures most { result ≤ MAX_ROWS }
    {
        self.store.len()
    }

    /// The entry of a number; `None` exactly where the number isn't 1 to the number of rows.
    pub fn entry(&self, number: u32) -> Option<Entry>
        ensures { result ≡ entry_numbered (entries_of self.now) number }
    {
        self.store.entry(number)
    }

    /// Answers an ask of the caller `by`, as the store does. A weighing finds no memory only where
    /// the session has taken down as many rows as there was room for. A crash at any moment of the
    /// call leaves the rows before it, and at most the entry that is offered or the one that hung
    /// besides; where no row is added the disk failed, or isn't touched.
    pub fn ask(&mut self, by: u16, ask: &Ask) -> Result<Answered, AskError>
        ensures answer { GivesAnswer (book_of self.old) by ask.now
            (added N.limit (entries_of self.old) by ask.now) result
            (answer N.limit (entries_of self.old) ask.now) }
        ensures entries { entries_of self.new ≡ list_behind result (entries_of self.old)
            (added N.limit (entries_of self.old) by ask.now) }
        ensures limit { limit_of self.old ≡ N.limit }
        ensures legal { IsLegal (entries_of self.new) }
        ensures begins { IsPrefixOf (entries_of self.old) (entries_of self.new) }
        ensures room { result ≡ Err error.NoMemory → weighs ask.now.want ≡ true
            → N.spare + length N.before ≤ length (entries_of self.old) }
        ensures offers { Offers D.Disk (added N.limit (entries_of self.old) by ask.now)
            self.old self.new }
        ensures still { length (entries_of self.new) ≤ length (entries_of self.old)
            → (result ≡ Err error.DiskFault) ⊎ (disk_of self.new ≡ disk_of self.old) }
        ensures hangs { Hangs self.new → (result ≡ Err error.DiskFault) ⊎ Hangs self.old }
        ensures cause { CountsDiskFault (D.faults (disk_of self.old)) (D.faults (disk_of self.new))
            result }
    {
        self.store.ask(by, ask)
    }

    /// Ends the session.
    pub fn into_store(self) -> Store<D>
        ensures store { result ≡ self }
        ensures kept { IsKeptSince D.Disk N.Session result }
    {
        let HeldStore { store, of: _ } = self;
        store
    }
}
