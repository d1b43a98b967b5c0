ghost use Rattle.std.specs.Prelude.{◌≡◌, false, Some};
ghost use Rattle.book_store.specs.Stores.{entries_of};
ghost use Rattle.text_streams.specs.Streams.{input_at, output_at};
ghost use Rattle.report_run.specs.Printing.{SaysText};
ghost use Rattle.paper_run.specs.Printing.{SaysPaper};
ghost use Rattle.list_run.specs.Texts.{list_text};
ghost use Rattle.act_lines.specs.ActViews.{acts_text};
ghost use Rattle.act_replay.specs.Replay.{CanBeReplayed};
ghost use Rattle.report_run.specs.Reports.{HasEachReading, IsReadBack, book_register};
ghost use Rattle.book_words.specs.Answers.{IsLegal};
ghost use Rattle.standby_hall.specs.Shipments.{shipment};
ghost use Rattle.hall_alone.specs.Calls.{reported, prove_stop, ProvesInput, SaysAll};

use acts_run::print_acts;
use book_store::Store;
use book_words::Name;
use disk_core::{Disk, Sink, Source};
use list_run::print_list;
use paper_run::print_paper;
use prove_run::{ProveEnd, prove_input};
use report_run::{print_register, print_report, print_sheet};
use standby_hall::ship_entries;
use std::alloc::Global;
use store_runs::{RunEnd, Stop};

// Writes the sheet of a batch; without a batch all sheets, and the summary.
fn write_report<K: Sink, D: Disk>(
    alloc: Global,
    store: &Store<D>,
    batch: Option<Name>,
    output: &mut K,
) -> Stop
    ensures { SaysText (output_at K.Sink output.old) (output_at K.Sink output.new)
        (reported batch (entries_of store.now)) result }
{
    match batch {
        Some(batch) => print_sheet(alloc, store, batch, output),
        None => print_report(alloc, store, output),
    }
}

/// Reports of the book of a store: the sheet of a batch or the line of its refusal; without a batch
/// all sheets in order of opening, and the summary. The store stays as it is.
pub fn report<K: Sink, D: Disk>(
    alloc: Global,
    store: Store<D>,
    batch: Option<Name>,
    output: &mut K,
) -> RunEnd<D>
    ensures says { SaysText (output_at K.Sink output.old) (output_at K.Sink output.new)
        (reported batch (entries_of store)) result.stop }
    ensures store { result.store ≡ store }
{
    RunEnd {
        stop: write_report(alloc, &store, batch, output),
        store,
    }
}

/// Writes the register of all packs of the book of a store. The store stays as it is.
pub fn export<K: Sink, D: Disk>(alloc: Global, store: Store<D>, output: &mut K) -> RunEnd<D>
    ensures says { SaysText (output_at K.Sink output.old) (output_at K.Sink output.new)
        (book_register (entries_of store)) result.stop }
    ensures each { result.stop ≡ Stop.Finished → HasEachReading (entries_of store) }
    ensures reads_back { IsReadBack (entries_of store) }
    ensures store { result.store ≡ store }
{
    RunEnd {
        stop: print_register(alloc, &store, output),
        store,
    }
}

// Writes the shipment of the book of a store after so many rows.
fn write_shipment<K: Sink, D: Disk>(store: &Store<D>, after: u32, output: &mut K) -> Stop
    requires legal { IsLegal (entries_of store.now) }
    ensures { SaysAll (output_at K.Sink output.old) (output_at K.Sink output.new)
        (shipment after (entries_of store.now)) result }
{
    match ship_entries(store.book().entries(), after, output) {
        Ok(()) => Stop::Finished,
        Err(_) => Stop::WriteFault,
    }
}

/// Writes the shipment of the book of a store after so many rows. The store stays as it is. It takes
/// no memory.
pub fn ship<K: Sink, D: Disk>(store: Store<D>, after: u32, output: &mut K) -> RunEnd<D>
    requires legal { IsLegal (entries_of store) }
    ensures says { SaysAll (output_at K.Sink output.old) (output_at K.Sink output.new)
        (shipment after (entries_of store)) result.stop }
    ensures store { result.store ≡ store }
{
    RunEnd {
        stop: write_shipment(&store, after, output),
        store,
    }
}

/// Writes the paper of a closed batch of the book of a store, or the line of its refusal. The store
/// stays as it is.
pub fn paper<K: Sink, D: Disk>(
    alloc: Global,
    store: Store<D>,
    batch: Name,
    output: &mut K,
) -> RunEnd<D>
    ensures says { SaysPaper (entries_of store) batch (output_at K.Sink output.old)
        (output_at K.Sink output.new) result.stop }
    ensures store { result.store ≡ store }
{
    RunEnd {
        stop: print_paper(alloc, &store, batch, output),
        store,
    }
}

/// Says what is in force in the book of a store that may have `limit` rows. The store stays as it is.
pub fn list<K: Sink, D: Disk>(
    alloc: Global,
    store: Store<D>,
    limit: u32,
    output: &mut K,
) -> RunEnd<D>
    ensures says { SaysText (output_at K.Sink output.old) (output_at K.Sink output.new)
        (list_text limit (entries_of store)) result.stop }
    ensures store { result.store ≡ store }
{
    RunEnd {
        stop: print_list(alloc, &store, limit, output),
        store,
    }
}

/// Writes the book of a store as text, from behind so many rows on. The store stays as it is.
pub fn acts<K: Sink, D: Disk>(
    alloc: Global,
    store: Store<D>,
    after: u32,
    output: &mut K,
) -> RunEnd<D>
    ensures says { SaysText (output_at K.Sink output.old) (output_at K.Sink output.new)
        (acts_text after (entries_of store)) result.stop }
    ensures replays { CanBeReplayed after (entries_of store) }
    ensures store { result.store ≡ store }
{
    RunEnd {
        stop: print_acts(alloc, &store, after, output),
        store,
    }
}

// How a run stops that proved its input so.
fn prove_stop(end: ProveEnd) -> Stop
    ensures { result ≡ prove_stop end }
{
    match end {
        ProveEnd::Proved => Stop::Finished,
        ProveEnd::BadLine(line) => Stop::BadLine(u64::from(line)),
        ProveEnd::ReadFault => Stop::ReadFault,
        ProveEnd::WriteFault => Stop::WriteFault,
        ProveEnd::NoMemory => Stop::NoMemory,
    }
}

/// Proves that the input is a paper that is true, and says so. The store stays as it is.
pub fn prove<S: Source, K: Sink, D: Disk>(
    alloc: Global,
    store: Store<D>,
    input: &mut S,
    output: &mut K,
) -> RunEnd<D>
    requires unended { S.ended input.old ≡ false }
    ensures proves { ProvesInput (input_at S.Source input.old) (input_at S.Source input.new)
        (output_at K.Sink output.old) (output_at K.Sink output.new) result.stop }
    ensures store { result.store ≡ store }
{
    RunEnd {
        stop: prove_stop(prove_input(alloc, input, output)),
        store,
    }
}
