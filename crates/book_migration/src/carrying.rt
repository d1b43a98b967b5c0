ghost use Rattle.std.specs.Prelude.{◌<◌, ◌≤◌, OnOk, IfOk, IfErr, length, take};
ghost use Rattle.book_store.specs.Stores.{entries_of, IsSound};
ghost use Rattle.store_runs.specs.Runs.{Goes};
ghost use Rattle.book_migration.specs.Carrying.{CarriesPiece, CarriesOn, StopsCarrying, CarrySteps, migration_state};

use book_store::Store;
use disk_core::Disk;
use old_journal::{OldJournal, OldPiece};
use store_runs::{Stop, bad_row, carry_entry};

/// A journal of version 1 that is carried into the book of a store.
#[derive(Drop)]
pub struct Migration<D: Disk> {
    pub store: Store<D>,
    pub journal: OldJournal,
}

// Carries what a piece tells, where the reader now has so many rows.
fn carry_piece<D: Disk>(store: &mut Store<D>, rows: u32, piece: &OldPiece) -> Result<(), Stop>
    requires sound { IsSound D.Disk store.old }
    ensures carries { CarriesPiece (entries_of store.old) (entries_of store.new) rows piece.now
        result }
    ensures goes { Goes D.Disk result store.old store.new }
    ensures sound { IsSound D.Disk store.new }
{
    match piece {
        OldPiece::Row { entry, .. } => carry_entry(store, rows, entry),
        OldPiece::Bad { .. } => Err(bad_row(rows)),
        OldPiece::Foreign => Err(bad_row(0)),
        OldPiece::Part | OldPiece::Header | OldPiece::Over => Ok(()),
    }
}

impl<D: Disk> Migration<D> {
    // Takes bytes up to the end of a slot, or all, and carries what they tell; says how many.
    fn take_slot(&mut self, bytes: &[u8]) -> Result<usize, Stop>
        requires some { 0 < length bytes.now }
        requires sound { IsSound D.Disk self.old.store }
        requires few { self.old.journal.rows ≤ length (entries_of self.old.store) }
        ensures bound { IfOk result (λ count. count ≤ length bytes.now) }
        ensures least { IfOk result (λ count. 0 < count) }
        ensures on { IfOk result (λ count. CarriesOn (migration_state self.old)
            (migration_state self.new) (take count bytes.now)) }
        ensures stops { IfErr result (StopsCarrying (migration_state self.old)
            (entries_of self.new.store) bytes.now) }
        ensures goes { Goes D.Disk result self.old.store self.new.store }
        ensures sound { IsSound D.Disk self.new.store }
        ensures few { OnOk result (self.new.journal.rows ≤ length (entries_of self.new.store)) }
    {
        let (count, piece) = self.journal.take(bytes);
        carry_piece(&mut self.store, self.journal.rows(), &piece)?;
        Ok(count)
    }

    /// Takes a piece of the journal: each row that ends in it is carried before the next.
    pub fn take_piece(&mut self, piece: &[u8]) -> Result<(), Stop>
        requires sound { IsSound D.Disk self.old.store }
        requires few { self.old.journal.rows ≤ length (entries_of self.old.store) }
        ensures steps { CarrySteps (migration_state self.old) (migration_state self.new) piece.now
            result }
        ensures goes { Goes D.Disk result self.old.store self.new.store }
        ensures sound { IsSound D.Disk self.new.store }
        ensures few { OnOk result (self.new.journal.rows ≤ length (entries_of self.new.store)) }
    {
        let mut rest = piece;
        while !rest.is_empty() {
            let count = self.take_slot(rest)?;
            rest = rest.split_at(count).1;
        }
        Ok(())
    }
}
