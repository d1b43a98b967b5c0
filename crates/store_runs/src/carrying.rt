ghost use Rattle.std.specs.Prelude.{◌≡◌, None};
ghost use Rattle.book_store.specs.Stores.{entries_of, entry_numbered, IsSound};
ghost use Rattle.store_runs.specs.declared.stop.Stop.TheVariants as stop;
ghost use Rattle.store_runs.specs.Carrying.{CarriesEntry};
ghost use Rattle.store_runs.specs.Runs.{Goes};

use crate::stop::{Offer, Stop};
use book_store::{AdoptError, Store};
use book_words::Entry;
use disk_core::Disk;

/// The row of a number can't be carried.
pub fn bad_row(number: u32) -> Stop
    ensures { result ≡ stop.BadLine number }
{
    Stop::BadLine(u64::from(number))
}

// Adds an entry to a book that has none of its number.
fn adopt_entry<D: Disk>(store: &mut Store<D>, number: u32, entry: &Entry) -> Result<(), Stop>
    requires sound { IsSound D.Disk store.old }
    requires behind { entry_numbered (entries_of store.old) number ≡ None }
    ensures carries { CarriesEntry (entries_of store.old) (entries_of store.new) number entry.now
        result }
    ensures goes { Goes D.Disk result store.old store.new }
    ensures sound { IsSound D.Disk store.new }
{
    match store.adopt(entry) {
        Ok(_) => Ok(()),
        Err(AdoptError::Unlawful) => Err(bad_row(number)),
        Err(AdoptError::DiskFault) => Err(Stop::DiskFault(Offer::Row(*entry))),
        Err(AdoptError::NoMemory) => Err(Stop::NoMemory),
    }
}

/// Carries the entry of another book with this number into a book: where the book has one of that
/// number it is to be the same, and else this one is added. It stops at `BadLine` with the number
/// where the book has another, or where the entry isn't lawful behind its rows; at `DiskFault` and
/// `NoMemory` where it was to be added and that failed. The rows are then as they were.
pub fn carry_entry<D: Disk>(store: &mut Store<D>, number: u32, entry: &Entry) -> Result<(), Stop>
    requires sound { IsSound D.Disk store.old }
    ensures carries { CarriesEntry (entries_of store.old) (entries_of store.new) number entry.now
        result }
    ensures goes { Goes D.Disk result store.old store.new }
    ensures sound { IsSound D.Disk store.new }
{
    match store.entry(number) {
        Some(held) if held == *entry => Ok(()),
        Some(_) => Err(bad_row(number)),
        None => adopt_entry(store, number, entry),
    }
}
