ghost use Rattle.std.specs.Prelude.{◌≡◌, [], ◌∷◌, ◌++◌, drop};

use crate::journal::Journal;
use crate::layout::{CLOSED, gate_behind};
use crate::settle::settle;
use book_snapshot::{OPEN, ROW_BYTES};
use disk_core::{Disk, Failed};
use hall_limits::MAX_ROWS;

// What is written behind the gate of a row: its other bytes, and the closed gate of the next slot.
fn behind_gate(row: &[u8; ROW_BYTES]) -> [u8; ROW_BYTES]
    ensures { result ≡ drop 1 row.now ++ CLOSED ∷ [] }
{
    let mut bytes = [CLOSED; ROW_BYTES];
    bytes[..ROW_BYTES - 1].copy_from_slice(&row[1..]);
    bytes
}

impl<D: Disk> Journal<D> {
    ghost use Rattle.std.specs.Prelude.{◌≡◌, ◌≢◌, ◌⊎◌, ◌+◌, ◌<◌, ◌≤◌, ℕ, List, Some, [], ◌∷◌, ◌++◌, false, true, IfOk, OnOk, OnErr, MatchResult, slice_index};
    ghost use Rattle.device_facts.specs.Count.{CountsFault};
    ghost use Rattle.device_facts.specs.Known.{TellsAsBefore};
    ghost use Rattle.disk_core.specs.Disk.{WhereTold, overwritten};
    ghost use Rattle.book_snapshot.specs.DenseRows.{IsRow};
    ghost use Rattle.book_journal.specs.Rows.{Recovers, gate_behind};
    ghost use Rattle.book_journal.specs.Journal.{disk_of, count_of, kept_of, Hangs, IsSound, HasRows, HangsWith, ImagesKeepRows};
    ghost use Rattle.book_journal.specs.Appending.{with_row, closed_gate, TouchesSlot, AppendsRow, PutsRow, KeepsRows};

    /// Appends a row behind the others. At an Ok it is acknowledged, and its number is told, which
    /// is the new count: from then on each crash leaves it. After a failure of the disk it stands
    /// whole or not at all. A failure after the row's gate was touched leaves the journal hanging;
    /// the next append first closes that gate.
    ///
    /// The row's gate is 1, its kind isn't 0, and bytes 2 to 5 are its number, one more than the
    /// count, which is at most a million. Failed comes only where the disk failed.
    pub fn append(&mut self, row: &[u8; ROW_BYTES]) -> Result<u32, Failed>
        requires row { IsRow ROW_BYTES (count_of self.old + 1) row.now }
        requires room { count_of self.old < MAX_ROWS }
        requires sound { IsSound D.Disk self.old }
        ensures appends { (rows : List (List ℕ)) → HasRows D.Disk self.old rows →
            AppendsRow D.Disk row.now result self.old self.new rows }
        ensures images { ImagesKeepRows D.Disk self.new }
        ensures number { IfOk result (λ number. number ≡ count_of self.new) }
        ensures count { MatchResult result (λ _. count_of self.new ≡ count_of self.old + 1)
            (λ _. count_of self.new ≡ count_of self.old) }
        ensures settled { OnOk result (¬ Hangs self.new) }
        ensures kept { kept_of self.new ≡ kept_of self.old }
        ensures written { WhereTold (D.reads (disk_of self.old)) (λ bytes.
            OnOk result (D.reads (disk_of self.new) ≡ Some (with_row self.old row.now bytes))) }
        ensures touched { WhereTold (D.reads (disk_of self.old)) (λ bytes.
            WhereTold (D.reads (disk_of self.new)) (TouchesSlot (count_of self.old) bytes)) }
        ensures cause { CountsFault (D.faults (disk_of self.old)) (D.faults (disk_of self.new))
            result }
        ensures asked { D.asked (disk_of self.new) ≡ D.asked (disk_of self.old) }
        ensures tells { TellsAsBefore (D.reads (disk_of self.old)) (D.reads (disk_of self.new)) }
        ensures sound { IsSound D.Disk self.new }
    {
        self.close()?;
        self.unmark()?;
        self.put(row)?;
        Ok(self.count)
    }

    // Closes the gate of the row that hangs, so that no crash leaves it.
    fn close(&mut self) -> Result<(), Failed>
        requires { IsSound D.Disk self.old }
        ensures keeps { (rows : List (List ℕ)) → HasRows D.Disk self.old rows →
            KeepsRows D.Disk self.old self.new rows }
        ensures hung { (hung : List ℕ) → HangsWith D.Disk self.new hung →
            HangsWith D.Disk self.old hung }
        ensures closed { OnOk result (self.new.hanging ≡ false) }
        ensures count { self.new.count ≡ self.old.count }
        ensures marked { self.new.marked ≡ self.old.marked }
        ensures kept { self.new.kept ≡ self.old.kept }
        ensures written { WhereTold (D.reads self.old.disk) (λ bytes.
            OnOk result (D.reads self.new.disk ≡ Some (closed_gate self.old bytes))) }
        ensures touched { WhereTold (D.reads self.old.disk) (λ bytes.
            WhereTold (D.reads self.new.disk) (TouchesSlot self.old.count bytes)) }
        ensures cause { CountsFault (D.faults self.old.disk) (D.faults self.new.disk) result }
        ensures asked { D.asked self.new.disk ≡ D.asked self.old.disk }
        ensures tells { TellsAsBefore (D.reads self.old.disk) (D.reads self.new.disk) }
        ensures sound { IsSound D.Disk self.new }
    {
        if !self.hanging {
            return Ok(());
        }
        settle(&mut self.disk, gate_behind(self.count), &[CLOSED])?;
        self.hanging = false;
        Ok(())
    }

    // Writes a row behind a closed gate, and opens the gate once the row is stable.
    fn put(&mut self, row: &[u8; ROW_BYTES]) -> Result<(), Failed>
        requires row { IsRow ROW_BYTES (self.old.count + 1) row.now }
        requires room { self.old.count < MAX_ROWS }
        requires closed { self.old.hanging ≡ false }
        requires unmarked { self.old.marked ≡ false }
        requires sound { IsSound D.Disk self.old }
        ensures puts { (rows : List (List ℕ)) → HasRows D.Disk self.old rows →
            PutsRow D.Disk row.now result self.old self.new rows }
        ensures count { MatchResult result (λ _. self.new.count ≡ self.old.count + 1)
            (λ _. self.new.count ≡ self.old.count) }
        ensures closed { OnOk result (self.new.hanging ≡ false) }
        ensures kept { self.new.kept ≡ self.old.kept }
        ensures written { WhereTold (D.reads self.old.disk) (λ bytes. OnOk result
            (D.reads self.new.disk ≡
            Some (overwritten bytes (gate_behind self.old.count) (row.now ++ CLOSED ∷ [])))) }
        ensures touched { WhereTold (D.reads self.old.disk) (λ bytes.
            WhereTold (D.reads self.new.disk) (TouchesSlot self.old.count bytes)) }
        ensures cause { CountsFault (D.faults self.old.disk) (D.faults self.new.disk) result }
        ensures asked { D.asked self.new.disk ≡ D.asked self.old.disk }
        ensures tells { TellsAsBefore (D.reads self.old.disk) (D.reads self.new.disk) }
        ensures sound { IsSound D.Disk self.new }
    {
        let gate = gate_behind(self.count);
        settle(&mut self.disk, gate + 1, &behind_gate(row))?;
        self.hanging = true;
        settle(&mut self.disk, gate, &[OPEN])?;
        self.hanging = false;
        self.count += 1;
        Ok(())
    }
}
