ghost use Rattle.std.specs.Prelude.{◌≡◌, List, ℕ, [], false, length, OnOk, IfOk, IfErr};
ghost use Rattle.book_words.specs.declared.act.Entry.{Entry};
ghost use Rattle.book_store.specs.Stores.{entries_of, held_of, IsSound};
ghost use Rattle.old_journal.specs.Reader.{old_after};
ghost use Rattle.text_streams.specs.Streams.{input_at};
ghost use Rattle.store_runs.specs.Runs.{Goes, RunGoes};
ghost use Rattle.book_migration.specs.declared.migrate.TheConstants.{MAX_OLD_READS};
ghost use Rattle.book_migration.specs.Migration.{EndsMigration, ExplainsMigration, input_moment};
ghost use Rattle.book_migration.specs.Carrying.{Carried, CarriesAll, IsFresh, migration_state};

use crate::carrying::Migration;
use book_store::Store;
use disk_core::{Disk, Source};
use old_journal::OldJournal;
use std::alloc::Global;
use store_runs::{RunEnd, Stop, bad_row, keep_snapshot};
use text_streams::Reader;

/// A migration makes at most so many reads, each of which gives a byte: the longest journal of
/// version 1 with its snapshot has fewer.
pub const MAX_OLD_READS: u32 = 200_000_000;

// Reads a journal to the end of the input, piece by piece, and carries its rows.
fn carry_all<S: Source, D: Disk>(
    migration: &mut Migration<D>,
    reader: &mut Reader,
    input: &mut S,
) -> Result<(), Stop>
    requires unended { S.ended input.old ≡ false }
    requires fresh { IsFresh reader.old }
    requires begun { migration.old.journal ≡ old_after [] }
    requires sound { IsSound D.Disk migration.old.store }
    ensures all { OnOk result (CarriesAll (entries_of migration.old.store)
        (input_at S.Source input.old) (input_at S.Source input.new)
        (migration_state migration.new)) }
    ensures stops { IfErr result (ExplainsMigration (entries_of migration.old.store)
        (input_moment S.Source input.old) (input_moment S.Source input.new)
        (entries_of migration.new.store)) }
    ensures goes { Goes D.Disk result migration.old.store migration.new.store }
    ensures sound { IsSound D.Disk migration.new.store }
{
    loop {
        reader.read(input)?;
        if reader.piece().is_empty() {
            return Ok(());
        }
        migration.take_piece(reader.piece())?;
    }
}

// Ends a migration whose input was read to its end: where rows were added, a snapshot is kept.
fn finish<D: Disk>(migration: &mut Migration<D>) -> Stop
    requires sound { IsSound D.Disk migration.old.store }
    ensures ends { (held : List Entry) (taken : List ℕ)
        → held_of migration.old.store ≡ length held
        → Carried held (migration_state migration.old) taken
        → EndsMigration held (entries_of migration.new.store) taken result }
    ensures goes { RunGoes D.Disk result migration.old.store migration.new.store }
    ensures sound { IsSound D.Disk migration.new.store }
{
    if !migration.journal.has_header() {
        return bad_row(0);
    }
    match keep_snapshot(&mut migration.store) {
        Ok(()) => Stop::Finished,
        Err(stop) => stop,
    }
}

// Carries a journal into the book of a store, and tells how that ended.
fn carry_out<S: Source, D: Disk>(
    migration: &mut Migration<D>,
    reader: &mut Reader,
    input: &mut S,
) -> Stop
    requires unended { S.ended input.old ≡ false }
    requires fresh { IsFresh reader.old }
    requires begun { migration.old.journal ≡ old_after [] }
    requires opened { held_of migration.old.store ≡ length (entries_of migration.old.store) }
    requires sound { IsSound D.Disk migration.old.store }
    ensures explained { ExplainsMigration (entries_of migration.old.store)
        (input_moment S.Source input.old) (input_moment S.Source input.new)
        (entries_of migration.new.store) result }
    ensures goes { RunGoes D.Disk result migration.old.store migration.new.store }
    ensures sound { IsSound D.Disk migration.new.store }
{
    match carry_all(migration, reader, input) {
        Ok(()) => finish(migration),
        Err(stop) => stop,
    }
}

/// Carries the rows of a journal of version 1, which is the input, into the book of a store that
/// was just mounted. A row that the book has is compared with it, and one that it lacks is adopted
/// as it stands, whatever the limit; where rows were added, a snapshot is kept at the end. All
/// memory but that of the book's entries and of the snapshot is taken before the first read.
///
/// It stops at `BadLine` with the number of the first row that can't be carried, and with 0 where
/// the input isn't such a journal; at `ReadFault` where the input failed, at `DiskFault` where the
/// disk did, and names what it was offered; at `NoMemory`; at `Spent` after `MAX_OLD_READS` reads
/// that each gave a byte. The rows before are then in the book, and it can be run again.
pub fn migrate_journal<S: Source, D: Disk>(
    alloc: Global,
    store: Store<D>,
    input: &mut S,
) -> RunEnd<D>
    requires unended { S.ended input.old ≡ false }
    requires opened { held_of store ≡ length (entries_of store) }
    requires sound { IsSound D.Disk store }
    ensures explained { ExplainsMigration (entries_of store) (input_moment S.Source input.old)
        (input_moment S.Source input.new) (entries_of result.store) result.stop }
    ensures goes { RunGoes D.Disk result.stop store result.store }
    ensures sound { IsSound D.Disk result.store }
{
    let Ok(mut reader) = Reader::new(alloc, MAX_OLD_READS) else {
        return RunEnd {
            stop: Stop::NoMemory,
            store,
        };
    };
    let mut migration = Migration {
        store,
        journal: OldJournal::new(),
    };
    let stop = carry_out(&mut migration, &mut reader, input);
    RunEnd {
        stop,
        store: migration.store,
    }
}
