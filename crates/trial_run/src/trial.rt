ghost use Rattle.std.specs.Prelude.{◌≡◌, ◌≤◌, length};
ghost use Rattle.book_store.specs.Stores.{entries_of, held_of, IsSound};
ghost use Rattle.text_streams.specs.Streams.{output_at};
ghost use Rattle.store_runs.specs.Books.{stored_book};
ghost use Rattle.store_runs.specs.Runs.{RunGoes};
ghost use Rattle.hall_limits.specs.declared.TheConstants.{MAX_TRIAL};
ghost use Rattle.trial_run.specs.Steps.{Asks};
ghost use Rattle.trial_run.specs.TrialScripts.{trial_commands};
ghost use Rattle.trial_run.specs.Trials.{EndsScript, ExplainsTrial};

use crate::asking::ask_all;
use crate::batches::ask_batches;
use crate::commands::head_commands;
use book_store::{OneCaller, Store};
use disk_core::{Disk, Sink};
use script_events::SCRIPT;
use script_session::Session;
use std::alloc::Global;
use store_runs::{RunEnd, Stop};

// Asks the whole script of a trial.
fn ask_trial<D: Disk>(
    alloc: Global,
    caller: &mut OneCaller<D>,
    number: u64,
    count: u32,
) -> Result<(), Stop>
    requires calm { caller.old.faults ≡ 0 }
    requires most { count ≤ MAX_TRIAL }
    ensures asks { Asks D.Disk result caller.old caller.new
        (trial_commands number count (stored_book caller.old.store)) }
{
    ask_all(caller, &head_commands())?;
    ask_batches(alloc, caller, number, count)
}

// Ends a trial whose script was answered: where rows were added, a snapshot of the book is kept
// first; then comes the summary.
fn finish<K: Sink, D: Disk>(alloc: Global, store: Store<D>, output: &mut K) -> RunEnd<D>
    requires sound { IsSound D.Disk store }
    ensures ends { EndsScript (held_of store) (output_at K.Sink output.old)
        (output_at K.Sink output.new) (entries_of store) result.stop }
    ensures same { entries_of result.store ≡ entries_of store }
    ensures goes { RunGoes D.Disk result.stop store result.store }
{
    match Session::new(alloc, store) {
        Ok(session) => {
            let end = session.finish(output);
            RunEnd {
                stop: end.stop,
                store: end.store,
            }
        }
        Err(store) => RunEnd {
            stop: Stop::NoMemory,
            store,
        },
    }
}

/// Makes the script of a trial from its number and its count of packs, runs it over a store, and
/// writes the summary alone. Each command is made as it is asked, so that no list of them is kept.
/// A refused command is answered, and the next is asked. At the end, where rows were added, a
/// snapshot of the book is kept; then comes the summary.
///
/// A trial stops without its summary where the disk fails (`DiskFault`, with what it was offered)
/// or there is no memory (`NoMemory`): for a row, for the packs that were drawn from a batch, for
/// the snapshot or for the text of the summary. At `WriteFault` the summary is cut. What was
/// accepted stands.
pub fn run_trial<K: Sink, D: Disk>(
    alloc: Global,
    store: Store<D>,
    number: u64,
    count: u32,
    output: &mut K,
) -> RunEnd<D>
    requires least { 1 ≤ count }
    requires most { count ≤ MAX_TRIAL }
    requires opened { held_of store ≡ length (entries_of store) }
    requires sound { IsSound D.Disk store }
    ensures explained { ExplainsTrial number count (stored_book store)
        (output_at K.Sink output.old) (output_at K.Sink output.new) (entries_of result.store)
        result.stop }
    ensures goes { RunGoes D.Disk result.stop store result.store }
{
    let mut caller = OneCaller::new(store, SCRIPT);
    match ask_trial(alloc, &mut caller, number, count) {
        Ok(()) => finish(alloc, caller.back(), output),
        Err(stop) => RunEnd {
            stop,
            store: caller.back(),
        },
    }
}
