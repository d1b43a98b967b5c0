ghost use Rattle.std.specs.Prelude.{◌≡◌, ◌≢◌, ◌*◌, ◌<◌, slice_index, IsTrue};
ghost use Rattle.book_snapshot.specs.DenseRows.{IsRow};
ghost use Rattle.book_snapshot.specs.Blocks.{IsSnapshotSize};
ghost use Rattle.book_journal.specs.Journal.{IsSound};

use book_journal::{BLOCKS_CONTENT, Dense, Journal, Kept, ROW_BYTES};
use book_snapshot::{MAX_CONTENT, squeeze};
use disk_core::{Disk, Failed, MemoryDisk};
use hall_limits::MAX_ROWS;
use hall_units::put_u32;
use std::alloc::Global;

/// A row of 96 bytes, whatever its gate and number.
pub(crate) type Row = [u8; ROW_BYTES];

/// A journal on a disk in memory that has room for rows.
#[derive(Drop)]
pub(crate) struct TestJournal<D: Disk> {
    pub(crate) journal: Journal<D>,
    ghost sound: { IsSound D.Disk journal },
}

// A row with its gate open and this number.
fn numbered(row: &Row, number: u32) -> Row
    requires { slice_index row.now 1 ≢ 0 }
    ensures { IsRow ROW_BYTES number result }
{
    let mut row = *row;
    row[0] = 1;
    put_u32(&mut row, 2, number);
    row
}

// Whether a snapshot of this size has such a piece.
fn holds(kept: Kept, piece: u64) -> bool
    ensures { IsTrue result → IsSnapshotSize kept.rows kept.bytes ×
        (BLOCKS_CONTENT * piece < kept.bytes) }
{
    1 <= kept.rows
        && kept.rows <= MAX_ROWS
        && kept.bytes <= MAX_CONTENT
        && piece < 30_000
        && BLOCKS_CONTENT as u64 * piece < kept.bytes
}

// Mounts a disk, again and again where it fails.
fn mount(disk: MemoryDisk) -> Option<TestJournal<MemoryDisk>> {
    let mut disk = disk;
    for _turn in 0..3 {
        match Journal::mount(disk) {
            Ok(journal) => {
                if journal.count() > MAX_ROWS {
                    return None;
                }
                return Some(TestJournal { journal });
            }
            Err(refused) => disk = refused.disk,
        }
    }
    None
}

/// Mounts an empty disk of which these calls fail.
pub(crate) fn mount_failing(alloc: Global, fails: &[u32]) -> Option<TestJournal<MemoryDisk>> {
    let fails = Vec::from_slice(alloc, fails).unwrap_or(Vec::new(alloc));
    mount(MemoryDisk::new(alloc, Vec::new(alloc), fails))
}

/// Mounts these bytes.
pub(crate) fn mount_bytes(alloc: Global, bytes: Vec<u8>) -> Option<TestJournal<MemoryDisk>> {
    mount(MemoryDisk::new(alloc, bytes, Vec::new(alloc)))
}

impl<D: Disk> TestJournal<D> {
    /// Appends a row, with the next number.
    pub(crate) fn add(&mut self, row: &Row) -> Result<u32, Failed> {
        let count = self.journal.count();
        if count >= MAX_ROWS || row[1] == 0 {
            return Err(Failed);
        }
        self.journal.append(&numbered(row, count + 1))
    }

    /// Reads a row.
    pub(crate) fn row(&mut self, number: u32) -> Result<Row, Failed> {
        if number == 0 || number > self.journal.count() {
            return Err(Failed);
        }
        self.journal.row(number)
    }

    /// A byte of a row, where it is read.
    pub(crate) fn byte(&mut self, number: u32, place: usize) -> Option<u8> {
        match self.row(number) {
            Ok(row) => row.get(place).copied(),
            Err(_) => None,
        }
    }

    /// Keeps a snapshot with this content.
    pub(crate) fn keep(&mut self, content: &Dense) -> Result<(), Failed> {
        let size = content.as_slice().len() as u64;
        if self.journal.hanging() || self.journal.count() == 0 || size == 0 || size > MAX_CONTENT {
            return Err(Failed);
        }
        self.journal.keep(content)
    }

    /// Reads a piece of the content, where there is one.
    pub(crate) fn blocks(
        &mut self,
        piece: u64,
        into: &mut [u8; BLOCKS_CONTENT],
    ) -> Result<usize, Failed> {
        match self.journal.kept() {
            Some(kept) if holds(kept, piece) => self.journal.blocks(piece, into),
            _ => Err(Failed),
        }
    }

    // Whether a row could be read, and its dense form was appended.
    fn squeezes(&mut self, number: u32, content: &mut Dense) -> bool {
        match self.row(number) {
            Ok(row) => squeeze_row(&row, content),
            Err(_) => false,
        }
    }

    // The same of all rows.
    fn squeezes_all(&mut self, content: &mut Dense) -> bool {
        for number in 1..self.journal.count().saturating_add(1) {
            if !self.squeezes(number, content) {
                return false;
            }
        }
        true
    }

    /// Whether a snapshot of its rows is kept: each of them could be read.
    pub(crate) fn keep_rows(&mut self, alloc: Global) -> bool {
        let mut content = Dense::new(alloc);
        self.squeezes_all(&mut content) && self.keep(&content).is_ok()
    }
}

/// Appends the dense form of a row, where it has a kind; tells whether there was memory.
pub(crate) fn squeeze_row(row: &Row, content: &mut Dense) -> bool {
    row[1] == 0 || squeeze(row, content).is_ok()
}

/// A copy of some bytes; of none where there is no memory, so that the test then fails.
pub(crate) fn copy(alloc: Global, bytes: &[u8]) -> Vec<u8> {
    Vec::from_slice(alloc, bytes).unwrap_or(Vec::new(alloc))
}

/// What the disk of a journal reads.
pub(crate) fn bytes_of(alloc: Global, journal: TestJournal<MemoryDisk>) -> Vec<u8> {
    copy(alloc, journal.journal.give_back().bytes())
}
