use crate::journal::Journal;
use crate::layout::CLOSED;
use crate::settle::settle;
use book_snapshot::MARK;
use disk_core::{Disk, Failed};

impl<D: Disk> Journal<D> {
    ghost use Rattle.std.specs.Prelude.{◌≡◌, ◌⊎◌, ℕ, ◌≤◌, List, Some, [], ◌∷◌, false, true, OnOk, length};
    ghost use Rattle.device_facts.specs.Count.{CountsFault};
    ghost use Rattle.device_facts.specs.Known.{TellsAsBefore};
    ghost use Rattle.disk_core.specs.Disk.{WhereTold, overwritten};
    ghost use Rattle.book_journal.specs.Journal.{IsSound, HasRows};
    ghost use Rattle.book_journal.specs.Appending.{cleared, TouchesSlot, KeepsRows};
    ghost use Rattle.book_journal.specs.Marking.{AreMarked};

    // Clears the mark of a journal that may be marked.
    pub(crate) fn unmark(&mut self) -> Result<(), Failed>
        requires { IsSound D.Disk self.old }
        ensures keeps { (rows : List (List ℕ)) → HasRows D.Disk self.old rows →
            KeepsRows D.Disk self.old self.new rows }
        ensures unmarked { OnOk result (self.new.marked ≡ false) }
        ensures count { self.new.count ≡ self.old.count }
        ensures hanging { self.new.hanging ≡ self.old.hanging }
        ensures kept { self.new.kept ≡ self.old.kept }
        ensures written { WhereTold (D.reads self.old.disk) (λ bytes.
            OnOk result (D.reads self.new.disk ≡ Some (cleared self.old.marked bytes))) }
        ensures touched { WhereTold (D.reads self.old.disk) (λ bytes.
            WhereTold (D.reads self.new.disk) (TouchesSlot self.old.count bytes)) }
        ensures cause { CountsFault (D.faults self.old.disk) (D.faults self.new.disk) result }
        ensures asked { D.asked self.new.disk ≡ D.asked self.old.disk }
        ensures tells { TellsAsBefore (D.reads self.old.disk) (D.reads self.new.disk) }
        ensures sound { IsSound D.Disk self.new }
    {
        if !self.marked {
            return Ok(());
        }
        self.mark(CLOSED)?;
        self.marked = false;
        Ok(())
    }

    // Writes the mark of a journal that may be marked.
    pub(crate) fn mark(&mut self, byte: u8) -> Result<(), Failed>
        requires marked { self.old.marked ≡ true }
        requires sound { IsSound D.Disk self.old }
        ensures marks { (rows : List (List ℕ)) → HasRows D.Disk self.old rows →
            KeepsRows D.Disk self.old self.new rows × OnOk result (AreMarked D.Disk self.new byte) }
        ensures same { self.new ≡ record self.old { disk = self.new.disk } }
        ensures written { WhereTold (D.reads self.old.disk) (λ bytes.
            OnOk result (D.reads self.new.disk ≡ Some (overwritten bytes MARK (byte ∷ [])))) }
        ensures touched { WhereTold (D.reads self.old.disk) (λ bytes.
            WhereTold (D.reads self.new.disk) (TouchesSlot self.old.count bytes)) }
        ensures cause { CountsFault (D.faults self.old.disk) (D.faults self.new.disk) result }
        ensures asked { D.asked self.new.disk ≡ D.asked self.old.disk }
        ensures tells { TellsAsBefore (D.reads self.old.disk) (D.reads self.new.disk) }
        ensures sound { IsSound D.Disk self.new }
    {
        settle(&mut self.disk, MARK as u64, &[byte])?;
        Ok(())
    }
}
