use crate::journal::Journal;
use crate::laying::write_snapshot;
use crate::layout::MARKED;
use book_snapshot::{Dense, Kept, MAX_CONTENT, snapshot_end};
use disk_core::{Disk, Failed};

impl<D: Disk> Journal<D> {
    ghost use Rattle.std.specs.Prelude.{◌≡◌, ◌⊎◌, ℕ, ◌<◌, ◌≤◌, List, Some, false, true, OnOk, length};
    ghost use Rattle.device_facts.specs.Count.{CountsFault};
    ghost use Rattle.device_facts.specs.Known.{TellsAsBefore};
    ghost use Rattle.disk_core.specs.Disk.{WhereTold, Only};
    ghost use Rattle.book_snapshot.specs.Layout.{snapshot_end};
    ghost use Rattle.book_snapshot.specs.Blocks.{IsSnapshotSize};
    ghost use Rattle.book_journal.specs.Journal.{disk_of, count_of, kept_of, Hangs, IsSound, HasRows};
    ghost use Rattle.book_journal.specs.Marking.{with_snapshot, kept_disk, HoldsSnapshot, IsContentOf, IsLaid, KeepsSnapshot};

    /// Keeps a snapshot of the rows on the disk, behind the closed gate: their dense forms, which
    /// opening then reads in place of their slots. A disk that is longer than the snapshot's end is
    /// left as it is, since its last bytes aren't the journal's. Failed comes only where the disk
    /// failed; the rows are the same then.
    ///
    /// The journal doesn't hang and has 1 to 1 000 000 rows, and the content has 1 to 92 000 000
    /// bytes. Where it isn't that of the rows, nothing is claimed of what a crash leaves.
    pub fn keep(&mut self, content: &Dense) -> Result<(), Failed>
        requires calm { ¬ Hangs self.old }
        requires some_rows { 1 ≤ count_of self.old }
        requires some_bytes { 1 ≤ length content.now }
        requires few_bytes { length content.now ≤ MAX_CONTENT }
        requires sound { IsSound D.Disk self.old }
        ensures keeps { (rows : List (List ℕ)) → HasRows D.Disk self.old rows →
            IsContentOf rows content.now → KeepsSnapshot D.Disk self.old self.new rows }
        ensures written { WhereTold (D.reads (disk_of self.old)) (λ bytes. OnOk result
            (D.reads (disk_of self.new) ≡ Some (kept_disk self.old content.now bytes))) }
        ensures fits { WhereTold (D.reads (disk_of self.old)) (λ bytes.
            length bytes ≤ snapshot_end (count_of self.old) (length content.now) →
            OnOk result (WhereTold (D.reads (disk_of self.new))
            (HoldsSnapshot (count_of self.old) content.now))) }
        ensures holds { OnOk result (WhereTold (D.reads (disk_of self.new)) (λ now.
            length now ≤ snapshot_end (count_of self.old) (length content.now) →
            HoldsSnapshot (count_of self.old) content.now now)) }
        ensures count { count_of self.new ≡ count_of self.old }
        ensures kept { kept_of self.new ≡ kept_of self.old }
        ensures calm { ¬ Hangs self.new }
        ensures cause { CountsFault (D.faults (disk_of self.old)) (D.faults (disk_of self.new))
            result }
        ensures asked { D.asked (disk_of self.new) ≡ D.asked (disk_of self.old) }
        ensures tells { TellsAsBefore (D.reads (disk_of self.old)) (D.reads (disk_of self.new)) }
        ensures sound { IsSound D.Disk self.new }
    {
        self.unmark()?;
        let kept = Kept {
            rows: self.count,
            bytes: content.as_slice().len() as u64,
        };
        let size = self.disk.len()?;
        if size > snapshot_end(kept) {
            return Ok(());
        }
        self.lay(kept, content.as_slice())?;
        self.marked = true;
        self.mark(MARKED)?;
        Ok(())
    }

    // Lays a snapshot behind the closed gate of a journal that isn't marked, and makes it stable.
    fn lay(&mut self, kept: Kept, content: &[u8]) -> Result<(), Failed>
        requires rows { kept.rows ≡ self.old.count }
        requires size { IsSnapshotSize kept.rows kept.bytes }
        requires bytes { kept.bytes ≡ length content.now }
        requires closed { self.old.hanging ≡ false }
        requires unmarked { self.old.marked ≡ false }
        requires sound { IsSound D.Disk self.old }
        ensures keeps { (rows : List (List ℕ)) → HasRows D.Disk self.old rows →
            KeepsSnapshot D.Disk self.old self.new rows }
        ensures laid { WhereTold (D.reads self.old.disk) (λ bytes.
            length bytes ≤ snapshot_end self.old.count (length content.now) →
            OnOk result (IsLaid D.Disk self.new (with_snapshot self.old.count content.now bytes))) }
        ensures same { self.new ≡ record self.old { disk = self.new.disk } }
        ensures cause { CountsFault (D.faults self.old.disk) (D.faults self.new.disk) result }
        ensures asked { D.asked self.new.disk ≡ D.asked self.old.disk }
        ensures tells { TellsAsBefore (D.reads self.old.disk) (D.reads self.new.disk) }
        ensures sound { IsSound D.Disk self.new }
    {
        write_snapshot(&mut self.disk, kept, content)?;
        self.disk.sync()?;
        Ok(())
    }
}
