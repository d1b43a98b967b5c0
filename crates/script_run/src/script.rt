ghost use Rattle.std.specs.Prelude.{◌≡◌, ◌+◌, ◌<◌, ◌≤◌, [], length, true, false, cond, OnOk, IfOk, IfErr, MatchResult};
ghost use Rattle.script_lines.specs.Feed.{feed_after};
ghost use Rattle.book_store.specs.Stores.{entries_of, held_of, IsSound};
ghost use Rattle.text_streams.specs.declared.reader.TheConstants.{PIECE};
ghost use Rattle.hall_limits.specs.declared.TheConstants.{MAX_LANE};
ghost use Rattle.store_runs.specs.Books.{BookState, stored_book};
ghost use Rattle.store_runs.specs.Runs.{Goes, RunGoes};
ghost use Rattle.script_session.specs.Sessions.{book_in, store_in, log_in, IsReady};
ghost use Rattle.script_run.specs.Books.{run_state, HasRead, HasReadWhole, HasReadOn};
ghost use Rattle.script_session.specs.Outside.{Devices, devices, call, call_between, outside_at, nothing_told};
ghost use Rattle.script_run.specs.Runs.{Explains, ExplainsRun};

use crate::run::Run;
use book_store::Store;
use disk_core::{Disk, Sink, Source};
use lane_worker::Lane;
use script_session::{LaneLog, ScriptEnd};
use std::alloc::Global;
use store_runs::Stop;
use text_streams::Reader;

/// A run makes at most so many reads, each of which gives a byte.
pub const MAX_READS: u32 = 100_000_000;

// Makes one read and answers the lines that it ends; says whether there may be more to read.
fn take_read<S: Source, K: Sink, D: Disk, L: Lane>(
    run: &mut Run<D>,
    reader: &mut Reader,
    input: &mut S,
    output: &mut K,
    lanes: &mut [L],
) -> Result<bool, Stop>
    requires few { length lanes.old ≤ MAX_LANE }
    requires unended { S.ended input.old ≡ false }
    requires room { run.old.feed.ended + PIECE < u64.MAX }
    requires ready { IsReady run.old.session }
    ensures unended { IfOk result (λ more. more ≡ true → S.ended input.new ≡ false) }
    ensures counted { OnOk result (reader.new.reads ≡ reader.old.reads + 1) }
    ensures most { OnOk result (reader.new.most ≡ reader.old.most) }
    ensures unspent { OnOk result (¬ (reader.old.reads ≡ reader.old.most)) }
    ensures explained { (book : BookState) (before : Devices S)
        → HasRead book before (devices S.Source input.old
        (outside_at K.Sink L.Cell L.Gate output.old lanes.old (log_in run.old.session)))
        reader.old (run_state run.old) → reader.old.most ≡ MAX_READS
        → MatchResult result
        (HasReadOn book before (devices S.Source input.new
        (outside_at K.Sink L.Cell L.Gate output.new lanes.new (log_in run.new.session)))
        reader.new (run_state run.new))
        (Explains book (record {
          before = before;
          now = devices S.Source input.new
              (outside_at K.Sink L.Cell L.Gate output.new lanes.new (log_in run.new.session));
          rows = entries_of (store_in run.new.session);
        })) }
    ensures goes { Goes D.Disk result (store_in run.old.session) (store_in run.new.session) }
    ensures ready { OnOk result (IsReady run.new.session) }
{
    reader.read(input)?;
    let piece = reader.piece();
    if piece.is_empty() {
        run.finish_line(output, lanes)?;
        return Ok(false);
    }
    run.take_piece(piece, output, lanes)?;
    Ok(true)
}

// Reads the whole script and answers its lines.
fn read_all<S: Source, K: Sink, D: Disk, L: Lane>(
    run: &mut Run<D>,
    reader: &mut Reader,
    input: &mut S,
    output: &mut K,
    lanes: &mut [L],
) -> Result<(), Stop>
    requires few { length lanes.old ≤ MAX_LANE }
    requires unended { S.ended input.old ≡ false }
    requires begun { run.old.feed ≡ feed_after [] }
    requires unread { reader.old ≡ record { piece = []; reads = 0; most = MAX_READS } }
    requires ready { IsReady run.old.session }
    ensures whole { OnOk result (HasReadWhole (book_in run.old.session)
        (devices S.Source input.old
        (outside_at K.Sink L.Cell L.Gate output.old lanes.old (log_in run.old.session)))
        (devices S.Source input.new
        (outside_at K.Sink L.Cell L.Gate output.new lanes.new (log_in run.new.session)))
        (book_in run.new.session)) }
    ensures explained { IfErr result (Explains (book_in run.old.session)
        (call S.Source input.old input.new
        (outside_at K.Sink L.Cell L.Gate output.old lanes.old (log_in run.old.session))
        (outside_at K.Sink L.Cell L.Gate output.new lanes.new (log_in run.new.session))
        (entries_of (store_in run.new.session)))) }
    ensures goes { Goes D.Disk result (store_in run.old.session) (store_in run.new.session) }
    ensures ready { OnOk result (IsReady run.new.session) }
{
    let mut more = true;
    while more {
        more = take_read(run, reader, input, output, lanes)?;
    }
    Ok(())
}

// A run over a store and a reader of its script, or the store where there is no memory for them.
fn begin<D: Disk>(alloc: Global, store: Store<D>) -> Result<(Run<D>, Reader), Store<D>>
    requires sound { IsSound D.Disk store }
    ensures fed { IfOk result (λ begun. begun.0.feed ≡ feed_after []) }
    ensures store { IfOk result (λ begun. store_in begun.0.session ≡ store) }
    ensures log { IfOk result (λ begun. log_in begun.0.session ≡ nothing_told) }
    ensures ready { IfOk result (λ begun. IsReady begun.0.session) }
    ensures unread { IfOk result (λ begun.
        begun.1 ≡ record { piece = []; reads = 0; most = MAX_READS }) }
    ensures back { IfErr result (λ back. back ≡ store) }
{
    let Ok(reader) = Reader::new(alloc, MAX_READS) else {
        return Err(store);
    };
    match Run::new(alloc, store) {
        Ok(run) => Ok((run, reader)),
        Err(store) => Err(store),
    }
}

// Reads and answers the whole script, and ends the run.
fn run_whole<S: Source, K: Sink, D: Disk, L: Lane>(
    mut run: Run<D>,
    mut reader: Reader,
    input: &mut S,
    output: &mut K,
    lanes: &mut [L],
) -> ScriptEnd<D>
    requires few { length lanes.old ≤ MAX_LANE }
    requires unended { S.ended input.old ≡ false }
    requires begun { run.feed ≡ feed_after [] }
    requires unread { reader ≡ record { piece = []; reads = 0; most = MAX_READS } }
    requires opened { held_of (store_in run.session) ≡ length (entries_of (store_in run.session)) }
    requires ready { IsReady run.session }
    ensures explained { Explains (book_in run.session)
        (call S.Source input.old input.new
        (outside_at K.Sink L.Cell L.Gate output.old lanes.old (log_in run.session))
        (outside_at K.Sink L.Cell L.Gate output.new lanes.new result.log.told)
        (entries_of result.store)) result.stop }
    ensures goes { RunGoes D.Disk result.stop (store_in run.session) result.store }
{
    match read_all(&mut run, &mut reader, input, output, lanes) {
        Ok(()) => run.session.finish(output),
        Err(stop) => run.session.stop(stop),
    }
}

/// Runs a script over a store, with the lanes that are handed in: the first is lane 1. Each command
/// is asked and answered before the next line is judged, and the answer is on the output before the
/// next is asked; so is each lane worked, and its line written. At the end of the script, where
/// rows were added, a snapshot of the book is kept; then comes the summary. Nothing else is
/// written: why a run stopped is said by its stop alone, and the line of a lane that stopped it is
/// still to be said.
///
/// All memory but that of the book's entries and of what is told of lanes is taken before the first
/// read. The input is read to its end at most, in at most `MAX_READS` reads.
pub fn run_script<S: Source, K: Sink, D: Disk, L: Lane>(
    alloc: Global,
    store: Store<D>,
    input: &mut S,
    output: &mut K,
    lanes: &mut [L],
) -> ScriptEnd<D>
    requires few { length lanes.old ≤ MAX_LANE }
    requires unended { S.ended input.old ≡ false }
    requires opened { held_of store ≡ length (entries_of store) }
    requires sound { IsSound D.Disk store }
    ensures explained { ExplainsRun (stored_book store)
        (call_between S.Source K.Sink L.Cell L.Gate input.old input.new output.old output.new
        lanes.old lanes.new result.log.told (entries_of result.store)) result.stop }
    ensures goes { RunGoes D.Disk result.stop store result.store }
{
    match begin(alloc, store) {
        Ok((run, reader)) => run_whole(run, reader, input, output, lanes),
        Err(store) => ScriptEnd {
            stop: Stop::NoMemory,
            store,
            log: LaneLog::new(alloc),
        },
    }
}
