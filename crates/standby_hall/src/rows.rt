ghost use Rattle.std.specs.Prelude.{◌≡◌, false, IfErr, OnOk, OnErr};
ghost use Rattle.book_store.specs.Stores.{entries_of, IsSound};
ghost use Rattle.text_streams.specs.Streams.{input_at};
ghost use Rattle.store_runs.specs.Runs.{Goes};
ghost use Rattle.standby_hall.specs.Following.{step_behind};
ghost use Rattle.standby_hall.specs.Rows.{entry_stop, CarriesSlot, StopsSlot, FollowsRow, StopsInRow};

use crate::arriving::fill;
use crate::types::FollowStop;
use book_snapshot::ROW_BYTES;
use book_store::Store;
use book_words::Entry;
use disk_core::{Disk, Source};
use row_format::read_row;
use store_runs::{Stop, carry_entry};

// Why the entry of this number wasn't carried.
fn entry_stop(number: u32, entry: &Entry, stop: &Stop) -> FollowStop
    ensures { result ≡ entry_stop number entry.now stop.now }
{
    match stop {
        Stop::DiskFault(_) => FollowStop::DiskFault { entry: *entry },
        Stop::NoMemory => FollowStop::NoMemory,
        _ => FollowStop::Row { row: number },
    }
}

// Carries the entry of a row that came whole.
fn follow_slot<D: Disk>(
    store: &mut Store<D>,
    slot: &[u8; ROW_BYTES],
    number: u32,
) -> Result<(), FollowStop>
    requires sound { IsSound D.Disk store.old }
    ensures carries { OnOk result (CarriesSlot (entries_of store.old) (entries_of store.new)
        number slot.now) }
    ensures stops { IfErr result (StopsSlot (entries_of store.old) number slot.now) }
    ensures same { OnErr result (entries_of store.new ≡ entries_of store.old) }
    ensures goes { Goes D.Disk (step_behind result) store.old store.new }
    ensures sound { IsSound D.Disk store.new }
{
    let Ok(entry) = read_row(slot, number) else {
        return Err(FollowStop::Row { row: number });
    };
    match carry_entry(store, number, &entry) {
        Ok(()) => Ok(()),
        Err(stop) => Err(entry_stop(number, &entry, &stop)),
    }
}

/// Reads the row of this number and carries its entry into the book of a store: where the book has
/// that row the entry is compared with it, and else added.
pub(crate) fn follow_row<S: Source, D: Disk>(
    store: &mut Store<D>,
    input: &mut S,
    number: u32,
) -> Result<(), FollowStop>
    requires unended { S.ended input.old ≡ false }
    requires sound { IsSound D.Disk store.old }
    ensures follows { OnOk result (FollowsRow (input_at S.Source input.old)
        (input_at S.Source input.new) (entries_of store.old) (entries_of store.new) number) }
    ensures unended { OnOk result (S.ended input.new ≡ false) }
    ensures stops { IfErr result (StopsInRow (input_at S.Source input.old)
        (input_at S.Source input.new) (entries_of store.old) number) }
    ensures same { OnErr result (entries_of store.new ≡ entries_of store.old) }
    ensures goes { Goes D.Disk (step_behind result) store.old store.new }
    ensures sound { IsSound D.Disk store.new }
{
    let mut slot = [0; ROW_BYTES];
    let Ok(count) = fill(input, &mut slot) else {
        return Err(FollowStop::ReadFault);
    };
    if count < ROW_BYTES {
        return Err(FollowStop::Row { row: number });
    }
    follow_slot(store, &slot, number)
}
