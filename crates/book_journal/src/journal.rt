use book_snapshot::Kept;
use disk_core::Disk;

/// Rows of 96 bytes on a disk, each behind a gate. A row that was acknowledged stands in every
/// image of every later moment; one that wasn't stands whole or not at all.
#[derive(Drop)]
pub struct Journal<D: Disk> {
    pub(crate) disk: D,
    pub(crate) count: u32,
    pub(crate) hanging: bool,
    pub(crate) marked: bool,
    pub(crate) kept: Option<Kept>,
}

impl<D: Disk> Journal<D> {
    ghost use Rattle.std.specs.Prelude.{◌≡◌, ◌↔◌, IsTrue};
    ghost use Rattle.book_journal.specs.Journal.{disk_of, count_of, kept_of, Hangs};

    /// How many rows it has.
    pub fn count(&self) -> u32
        ensures { result ≡ count_of self.now }
    {
        self.count
    }

    /// Whether an append failed so late that a crash may leave its row or not. The next append
    /// settles that first.
    pub fn hanging(&self) -> bool
        ensures { IsTrue result ↔ Hangs self.now }
    {
        self.hanging
    }

    /// The snapshot that fitted the disk when it was mounted, if one did.
    pub fn kept(&self) -> Option<Kept>
        ensures { result ≡ kept_of self.now }
    {
        self.kept
    }

    /// Hands the disk back.
    pub fn give_back(self) -> D
        ensures { result ≡ disk_of self }
    {
        self.disk
    }
}
