ghost use Rattle.std.specs.Prelude.{◌≡◌, length};
ghost use Rattle.book_store.specs.Stores.{entries_of};
ghost use Rattle.text_streams.specs.Streams.{output_at};
ghost use Rattle.hall_alone.specs.Calls.{SaysWhole, EndsCarrying};

use book_store::Store;
use disk_core::{Disk, Sink};
use store_runs::{RunEnd, Stop};
use text_streams::write_numbered;

// Writes how many rows a book has that is whole; it takes no memory.
fn write_whole<K: Sink>(rows: u32, output: &mut K) -> Stop
    ensures { SaysWhole (output_at K.Sink output.old) (output_at K.Sink output.new) rows result }
{
    match write_numbered(output, b"rows ", u64::from(rows), b" whole\n") {
        Ok(()) => Stop::Finished,
        Err(_) => Stop::WriteFault,
    }
}

/// Says that the book of a store is whole, and how many rows it has: a disk whose rows aren't those
/// of a book isn't opened. It takes no memory.
pub fn say_whole<K: Sink, D: Disk>(store: Store<D>, output: &mut K) -> RunEnd<D>
    ensures says { SaysWhole (output_at K.Sink output.old) (output_at K.Sink output.new)
        (length (entries_of store)) result.stop }
    ensures store { result.store ≡ store }
{
    RunEnd {
        stop: write_whole(store.len(), output),
        store,
    }
}

/// Behind a run that carried rows into the book of a store to its end, says that the book is whole.
pub fn end_carrying<K: Sink, D: Disk>(end: RunEnd<D>, output: &mut K) -> RunEnd<D>
    ensures ends { EndsCarrying (output_at K.Sink output.old) (output_at K.Sink output.new)
        (length (entries_of end.store)) end.stop result.stop }
    ensures store { result.store ≡ end.store }
{
    match end.stop {
        Stop::Finished => say_whole(end.store, output),
        _ => end,
    }
}
