ghost use Rattle.std.specs.Prelude.{◌≡◌, false, length};
ghost use Rattle.book_store.specs.Stores.{entries_of, held_of, IsSound};
ghost use Rattle.text_streams.specs.Streams.{input_at, output_at};
ghost use Rattle.store_runs.specs.Books.{stored_book};
ghost use Rattle.store_runs.specs.Calls.{call};
ghost use Rattle.store_runs.specs.Runs.{RunGoes};
ghost use Rattle.import_table.specs.Imports.{import_in};
ghost use Rattle.script_session.specs.Sessions.{book_in, store_in, IsReady};
ghost use Rattle.import_run.specs.Ends.{EndsImport};
ghost use Rattle.import_run.specs.Reading.{stop_unread};
ghost use Rattle.import_run.specs.Runs.{ExplainsImport};

use crate::records::answer_import;
use book_store::Store;
use disk_core::{Disk, Sink, Source};
use import_table::MAX_IMPORT;
use script_session::{ScriptEnd, Session};
use std::alloc::Global;
use store_runs::{RunEnd, Stop};
use text_streams::{Unread, read_whole};

// How a run stops whose import wasn't read whole.
fn stop_unread(unread: Unread) -> Stop
    ensures { result ≡ stop_unread unread }
{
    match unread {
        Unread::TooLong => Stop::BadLine(0),
        Unread::Failed => Stop::ReadFault,
        Unread::NoMemory => Stop::NoMemory,
    }
}

// Answers an import that was read whole, and ends its run.
fn finish<K: Sink, D: Disk>(
    alloc: Global,
    mut session: Session<D>,
    bytes: &[u8],
    output: &mut K,
) -> ScriptEnd<D>
    requires ready { IsReady session }
    requires opened { held_of (store_in session) ≡ length (entries_of (store_in session)) }
    ensures ends { EndsImport (book_in session) (output_at K.Sink output.old)
        (output_at K.Sink output.new) (entries_of result.store) (import_in bytes.now)
        result.stop }
    ensures goes { RunGoes D.Disk result.stop (store_in session) result.store }
{
    match answer_import(alloc, &mut session, bytes, output) {
        Ok(()) => session.finish(output),
        Err(stop) => session.stop(stop),
    }
}

// Reads an import whole, and then answers it.
fn run_whole<S: Source, K: Sink, D: Disk>(
    alloc: Global,
    session: Session<D>,
    input: &mut S,
    output: &mut K,
) -> ScriptEnd<D>
    requires unended { S.ended input.old ≡ false }
    requires ready { IsReady session }
    requires opened { held_of (store_in session) ≡ length (entries_of (store_in session)) }
    ensures explained { ExplainsImport (book_in session)
        (call S.Source K.Sink input.old output.old input.new output.new
        (entries_of result.store)) result.stop }
    ensures goes { RunGoes D.Disk result.stop (store_in session) result.store }
{
    match read_whole(alloc, input, MAX_IMPORT as u32) {
        Ok(bytes) => finish(alloc, session, &bytes, output),
        Err(unread) => session.stop(stop_unread(unread)),
    }
}

/// Runs an import over a store: it is read whole, so that at a fault of the input nothing is asked.
/// Then each command is asked, and its answer is on the output before the next is asked. At the
/// end, where rows were added, a snapshot of the book is kept; then comes the summary. Nothing else
/// is written: why a run stopped is said by its stop alone. An import that comes again is answered
/// again, and what it added before stands once.
///
/// `BadLine` names the record that asks no act, where the header is 1; it names 0 where
/// the import has more than 16 777 216 bytes. `Spent` says that it has more than 1 000 000 records.
/// At both the commands of the records before are answered. Memory is taken for the import as its
/// bytes come, for its longest record and for the book's entries; `NoMemory` may come at any of
/// them, and what was answered before stands.
pub fn run_import<S: Source, K: Sink, D: Disk>(
    alloc: Global,
    store: Store<D>,
    input: &mut S,
    output: &mut K,
) -> RunEnd<D>
    requires unended { S.ended input.old ≡ false }
    requires opened { held_of store ≡ length (entries_of store) }
    requires sound { IsSound D.Disk store }
    ensures explained { ExplainsImport (stored_book store)
        (call S.Source K.Sink input.old output.old input.new output.new
        (entries_of result.store)) result.stop }
    ensures goes { RunGoes D.Disk result.stop store result.store }
{
    match Session::new(alloc, store) {
        Ok(session) => {
            let ended = run_whole(alloc, session, input, output);
            RunEnd {
                stop: ended.stop,
                store: ended.store,
            }
        }
        Err(store) => RunEnd {
            stop: Stop::NoMemory,
            store,
        },
    }
}
