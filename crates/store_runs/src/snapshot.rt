ghost use Rattle.std.specs.Prelude.{◌≡◌, OnOk, IfErr};
ghost use Rattle.book_store.specs.Stores.{disk_of, book_of, entries_of, held_of, HasBook, KeepsBook, IsSound};
ghost use Rattle.store_runs.specs.Runs.{FailsToKeep, Goes, HasAddedRows, LeavesSnapshot};

use crate::stop::{Offer, Stop};
use book_store::{RestError, Store};
use disk_core::Disk;

/// Keeps a snapshot of a book that has grown since its disk was mounted; the disk of another isn't
/// touched. A crash at any moment of the call leaves the book.
pub fn keep_snapshot<D: Disk>(store: &mut Store<D>) -> Result<(), Stop>
    requires sound { IsSound D.Disk store.old }
    ensures stops { IfErr result (FailsToKeep (held_of store.old) (entries_of store.old)) }
    ensures book { book_of store.new ≡ book_of store.old }
    ensures goes { Goes D.Disk result store.old store.new }
    ensures snapshot { OnOk result (LeavesSnapshot D.Disk store.new) }
    ensures idle { ¬ HasAddedRows store.old → disk_of store.new ≡ disk_of store.old }
    ensures keeps { HasBook D.Disk store.old → KeepsBook D.Disk store.old store.new }
    ensures sound { IsSound D.Disk store.new }
{
    if store.len() <= store.held() {
        return Ok(());
    }
    match store.rest() {
        Ok(_) => Ok(()),
        Err(RestError::DiskFault) => Err(Stop::DiskFault(Offer::Snapshot)),
        Err(RestError::NoMemory) => Err(Stop::NoMemory),
    }
}
