use crate::store::Store;
use crate::types::AdoptError;
use book_core::ReplayError;
use book_words::Entry;
use disk_core::Disk;

impl<D: Disk> Store<D> {
    ghost use Rattle.std.specs.Prelude.{◌≡◌, ◌⊎◌, ◌+◌, ◌≤◌, Err, OnOk, length};
    ghost use Rattle.device_facts.specs.Known.{TellsAsBefore};
    ghost use Rattle.book_words.specs.Answers.{IsLawful, IsLegal};
    ghost use Rattle.book_store.specs.declared.types.AdoptError.TheVariants as error;
    ghost use Rattle.book_store.specs.Stores.{disk_of, book_of, entries_of, limit_of, spare_of, held_of, Hangs, HasBook, ImagesHoldBook, IsSound};
    ghost use Rattle.book_store.specs.Offers.{LeavesDisk, OffersEntry};
    ghost use Rattle.book_store.specs.Adopting.{Adopts, list_adopted, CountsAdoptFault};

    /// Appends an entry of another book as it stands, with whoever brought it, its desk and its
    /// signal, and tells its number. It is written down and stable before it is in the book.
    /// `Unlawful` comes exactly where it isn't lawful behind the list; the book's limit doesn't
    /// bind it. Want of memory is answered only for a lawful entry, and for a weighing only where
    /// no row is spare.
    pub fn adopt(&mut self, entry: &Entry) -> Result<u32, AdoptError>
        requires sound { IsSound D.Disk self.old }
        ensures adopts { Adopts (book_of self.old) entry.now result }
        ensures entries { entries_of self.new
            ≡ list_adopted result (entries_of self.old) entry.now }
        ensures legal { IsLegal (entries_of self.new) }

        // What a crash leaves, during the call and after it.
        ensures offers { IsLawful (entries_of self.old) entry.now → HasBook D.Disk self.old →
            OffersEntry D.Disk entry.now self.old self.new }
        ensures images { ImagesHoldBook D.Disk self.new }
        ensures unlawful { result ≡ Err error.Unlawful → LeavesDisk D.Disk self.old self.new }
        ensures no_memory { result ≡ Err error.NoMemory → LeavesDisk D.Disk self.old self.new }
        ensures hangs { Hangs self.new → (result ≡ Err error.DiskFault) ⊎ Hangs self.old }
        ensures settled { OnOk result (¬ Hangs self.new) }

        ensures limit { limit_of self.new ≡ limit_of self.old }
        ensures held { held_of self.new ≡ held_of self.old }
        ensures spare { spare_of self.old + length (entries_of self.old)
            ≤ spare_of self.new + length (entries_of self.new) }
        ensures cause { CountsAdoptFault (D.faults (disk_of self.old)) (D.faults (disk_of self.new))
            result }
        ensures asked { D.asked (disk_of self.new) ≡ D.asked (disk_of self.old) }
        ensures tells { TellsAsBefore (D.reads (disk_of self.old)) (D.reads (disk_of self.new)) }
        ensures sound { IsSound D.Disk self.new }
    {
        let ready = match self.book.admit(entry) {
            Ok(ready) => ready,
            Err(ReplayError::Unlawful) => return Err(AdoptError::Unlawful),
            Err(ReplayError::NoMemory) => return Err(AdoptError::NoMemory),
        };
        let number = ready.number();
        match self.enter(ready) {
            Ok(_) => Ok(number),
            Err(_) => Err(AdoptError::DiskFault),
        }
    }
}
