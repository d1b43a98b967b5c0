ghost use Rattle.book_store.specs.Stores.{IsSound};

use book_mount::mount;
use book_store::Store;
use book_words::Entry;
use disk_core::{Disk, MemoryDisk, MemorySink, MemorySource, Partly};
use memory_hall::{copy, disk_of};
use standby_hall::{FollowError, follow, follow_shipments, ship_entries};
use std::alloc::Global;

/// A copy of a book. It is closed, and never let go.
pub(crate) struct BookCopy<D: Disk> {
    store: Store<D>,
    ghost sound: { IsSound D.Disk store },
}

impl<D: Disk> BookCopy<D> {
    // Adds the first of some entries, up to so many rows.
    fn take_to(&mut self, entries: &[Entry], rows: usize) {
        for entry in entries.iter().take(rows) {
            let _ = self.store.adopt(entry);
        }
    }

    /// How many rows it has.
    pub(crate) fn len(&self) -> u32 {
        self.store.len()
    }

    /// Whether its rows are the first of some entries.
    pub(crate) fn has_front(&self, entries: &[Entry]) -> bool {
        let rows = self.store.book().entries();
        entries.get(..rows.len()) == Some(rows)
    }

    /// Follows these bytes, of which the reads with these numbers fail.
    pub(crate) fn follow(
        &mut self,
        alloc: Global,
        bytes: &[u8],
        fails: &[u32],
    ) -> Result<u32, FollowError> {
        let mut input = MemorySource::new(copy(alloc, bytes), copy(alloc, fails));
        follow(&mut self.store, &mut input)
    }

    /// Follows these bytes, which are at most so many shipments; of the reads these fail.
    pub(crate) fn follow_several(
        &mut self,
        alloc: Global,
        bytes: &[u8],
        most: u32,
        fails: &[u32],
    ) -> Result<u32, FollowError> {
        let mut input = MemorySource::new(copy(alloc, bytes), copy(alloc, fails));
        Ok(follow_shipments(&mut self.store, &mut input, most.max(1))?)
    }

    /// Its shipment, to a sink of which the writes with these numbers fail.
    pub(crate) fn shipment(
        &self,
        alloc: Global,
        after: u32,
        fails: &[u32],
    ) -> (Result<(), Partly>, MemorySink) {
        let mut sink = MemorySink::new(alloc, copy(alloc, fails));
        let told = ship_entries(self.store.book().entries(), after, &mut sink);
        (told, sink)
    }

    /// Its disk.
    pub(crate) fn close(self) -> D {
        let BookCopy { store } = self;
        let (disk, _) = store.close();
        disk
    }
}

/// A copy with the first rows of some entries, on a disk of which the calls with these numbers
/// fail. Mounting makes four calls, and each row four.
pub(crate) fn open_copy(
    alloc: Global,
    entries: &[Entry],
    rows: usize,
    fails: &[u32],
) -> Option<BookCopy<MemoryDisk>> {
    let Ok(store) = mount(alloc, disk_of(alloc, &[], fails), 1) else {
        return None;
    };
    let mut copied = BookCopy { store };
    copied.take_to(entries, rows);
    Some(copied)
}
