ghost use Rattle.std.specs.Prelude.{◌≡◌, ◌+◌, min};
ghost use Rattle.book_words.specs.Callers.{FAULTS_END, faults_told};
ghost use Rattle.book_store.specs.Callers.{failed_behind};

use crate::store::Store;
use book_words::{Answered, Ask, AskError, Caller};
use disk_core::Disk;
use std::marker::Model;

/// A caller that has a store for itself, on one thread.
#[derive(Drop)]
pub struct OneCaller<D: Disk> {
    store: Store<D>,
    by: u16,
    faults: u64,
    failed: Option<Ask>,
}

impl<D: Disk> Model for OneCaller<D> {
    ghost use Rattle.book_store.specs.Stores.{IsSound};
    ghost use Rattle.book_store.specs.Callers.{CallerView};

    ghost Value = { CallerView D };

    ghost view = { λ c. record {
      store = c.store;
      by = c.by;
      faults = c.faults;
      failed = c.failed;
    } };

    ghost invariant = { λ c. IsSound D.Disk c.store };
}

impl<D: Disk> OneCaller<D> {
    ghost use Rattle.std.specs.Prelude.{◌≡◌, None};
    ghost use Rattle.book_store.specs.Stores.{IsSound};

    /// A caller of this store whose entries bear the number `by`. It was answered no fault.
    pub fn new(store: Store<D>, by: u16) -> OneCaller<D>
        requires sound { IsSound D.Disk store }
        ensures { result ≡ record { store = store; by = by; faults = 0; failed = None } }
    {
        OneCaller {
            store,
            by,
            faults: 0,
            failed: None,
        }
    }

    /// Speaks as another caller from now on.
    pub fn turn(&mut self, by: u16)
        ensures { self.new ≡ record self.old { by = by } }
    {
        self.by = by;
    }

    /// How many faults of the disk it was answered, up to the greatest number of 64 bits.
    pub fn faults(&self) -> u64
        ensures { result ≡ self.now.faults }
    {
        self.faults
    }

    /// The ask at which the disk failed last, if it did.
    pub fn failed(&self) -> Option<Ask>
        ensures { result ≡ self.now.failed }
    {
        self.failed
    }

    /// The store, to be read.
    pub fn store(&self) -> &Store<D>
        ensures store { result.now ≡ self.now.store }
        ensures sound { IsSound D.Disk self.now.store }
    {
        &self.store
    }

    /// Gives the store back.
    pub fn back(self) -> Store<D>
        ensures store { result ≡ self.store }
        ensures sound { IsSound D.Disk result }
    {
        self.store
    }
}

impl<D: Disk> Caller for OneCaller<D> {
    ghost use Rattle.std.specs.Prelude.{◌≡◌, ◌+◌, ◌≤◌, [], ◌∷◌, Err, length};
    ghost use Rattle.book_words.specs.Answers.{answer, added};
    ghost use Rattle.book_words.specs.Callers.{IsAsked};
    ghost use Rattle.book_words.specs.declared.caller.AskError.TheVariants as error;
    ghost use Rattle.book_store.specs.Stores.{disk_of, book_of, entries_of, limit_of, spare_of};
    ghost use Rattle.book_store.specs.Offers.{CountsDiskFault, GivesAnswer, LeavesDisk, list_behind, offered_behind};
    ghost use Rattle.book_store.specs.Kept.{KeepsOn};
    ghost use Rattle.book_store.specs.Callers.{known_of, IsReachedBy};
    ghost use Rattle.book_store.specs.CallerLaws.{is_reached};

    ghost known = { λ caller. known_of caller };

    ghost later = { λ old new asks. IsReachedBy D.Disk old new asks };

    /// Asks the store. Its answer is the book's to the whole list, and all of the list is seen.
    fn ask(&mut self, ask: &Ask) -> Result<Answered, AskError>
        ensures asked { IsAsked (known_of self.old) (known_of self.new) ask.now result }
        ensures later { IsReachedBy D.Disk self.old self.new (ask.now ∷ []) }
        ensures answer { GivesAnswer (book_of self.old.store) self.old.by ask.now
            (added (limit_of self.old.store) (entries_of self.old.store) self.old.by ask.now) result
            (answer (limit_of self.old.store) (entries_of self.old.store) ask.now) }
        ensures entries { entries_of self.new.store ≡ list_behind result
            (entries_of self.old.store)
            (added (limit_of self.old.store) (entries_of self.old.store) self.old.by ask.now) }
        ensures no_memory { result ≡ Err error.NoMemory →
            LeavesDisk D.Disk self.old.store self.new.store }
        ensures cause { CountsDiskFault (D.faults (disk_of self.old.store))
            (D.faults (disk_of self.new.store)) result }
        ensures spare { spare_of self.old.store + length (entries_of self.old.store)
            ≤ spare_of self.new.store + length (entries_of self.new.store) }
        ensures kept { KeepsOn D.Disk (offered_behind result
            (added (limit_of self.old.store) (entries_of self.old.store) self.old.by ask.now))
            self.old.store self.new.store }
    {
        let given = self.store.ask(self.by, ask);
        self.faults = faults_behind(self.faults, &given);
        self.failed = failed_last(self.failed, ask, &given);
        given
    }

    ghost reached = { is_reached };
}

// A count of faults behind an answer.
fn faults_behind(faults: u64, given: &Result<Answered, AskError>) -> u64
    ensures { result ≡ min (faults + faults_told given.now) FAULTS_END }
{
    match given {
        Err(AskError::DiskFault) => faults.saturating_add(1),
        _ => faults,
    }
}

// The ask at which the disk failed last, behind an answer.
fn failed_last(failed: Option<Ask>, ask: &Ask, given: &Result<Answered, AskError>) -> Option<Ask>
    ensures { result ≡ failed_behind given.now ask.now failed }
{
    match given {
        Err(AskError::DiskFault) => Some(*ask),
        _ => failed,
    }
}
