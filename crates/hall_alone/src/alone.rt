//! Every command but `serve`: they wait for nobody.
ghost use Rattle.std.specs.Prelude.{◌≡◌, ◌≤◌, ◌↔◌, [], length, false, IfOk, IsTrue, None, Some, Option};
ghost use Rattle.hall_limits.specs.declared.TheConstants.{MAX_LANE, MAX_ROWS};
ghost use Rattle.book_words.specs.Answers.{IsLegal};
ghost use Rattle.book_words.specs.Soundness.{IsSound as IsSoundBook};
ghost use Rattle.book_store.specs.Stores.{entries_of, held_of, IsSound};
ghost use Rattle.command_line.specs.Words.{Wanted, bytes_of};
ghost use Rattle.command_line.specs.Taken.{IsInRange, seen};
ghost use Rattle.store_runs.specs.Books.{stored_book};
ghost use Rattle.script_run.specs.Outside.{nothing_told};
ghost use Rattle.store_runs.specs.Runs.{RunGoes};
ghost use Rattle.text_streams.specs.Streams.{output_at};
ghost use Rattle.call_endings.specs.declared.ending.Ending.TheVariants as ending;
ghost use Rattle.hall_alone.specs.Asked.{begins_serve, is_serve, is_audit, wanted_alone, refused_as, IsRead};
ghost use Rattle.hall_alone.specs.Requests.{RequestsOnce};
ghost use Rattle.call_endings.specs.Endings.{is_status, SaysLast};
ghost use Rattle.hall_alone.specs.Calls.{call_between, ExplainsCommand, EndsAs, CommandDone, AuditsDisk, ending_of, IsUsage, Leaves};

use crate::ended::{Ended, Outcome};
use crate::reports::{acts, export, list, paper, prove, report, ship};
use crate::whole::{end_carrying, say_whole};
use book_audit::{AuditEnd, audit_run};
use book_core::{Book, Rows};
use book_migration::migrate_journal;
use book_mount::{MountError, mount};
use book_store::Store;
use call_endings::{Ending, say_last};
use command_line::{Command, Wants, WantsError, wants};
use disk_core::{Disk, Sink, Source};
use hall_limits::MAX_ROWS;
use import_run::run_import;
use job_reports::DoorEnds;
use lane_worker::Lane;
use script_run::{LaneLog, ScriptEnd, run_script};
use standby_hall::follow_run;
use std::alloc::Global;
use store_runs::{RunEnd, Stop};
use trial_run::run_trial;

// The end of a command that works no lane.
fn without_lanes<D: Disk>(alloc: Global, end: RunEnd<D>) -> ScriptEnd<D>
    ensures stop { result.stop ≡ end.stop }
    ensures store { result.store ≡ end.store }
    ensures log { result.log.told ≡ nothing_told }
{
    ScriptEnd {
        stop: end.stop,
        store: end.store,
        log: LaneLog::new(alloc),
    }
}

// Does what is wanted over a store.
fn run_command<S: Source, K: Sink, D: Disk, L: Lane>(
    alloc: Global,
    wanted: &Wants,
    store: Store<D>,
    input: &mut S,
    output: &mut K,
    lanes: &mut [L],
) -> ScriptEnd<D>
    requires few { length lanes.old ≤ MAX_LANE }
    requires unended { S.ended input.old ≡ false }
    requires opened { held_of store ≡ length (entries_of store) }
    requires sound { IsSound D.Disk store }
    requires legal { IsLegal (entries_of store) }
    requires range { IsInRange (seen wanted.now) }
    requires alone { is_serve wanted.now.command ≡ false }
    requires unaudited { is_audit wanted.now.command ≡ false }
    ensures explained { ExplainsCommand (seen wanted.now) (stored_book store)
        (call_between S.Source K.Sink L.Cell L.Gate input.old input.new output.old output.new
        lanes.old lanes.new result.log.told (entries_of result.store)) result.stop }
    ensures goes { RunGoes D.Disk result.stop store result.store }
{
    match wanted.command {
        Command::Serve | Command::Audit => unreachable!(),
        Command::Run => run_script(alloc, store, input, output, lanes),
        Command::Report => without_lanes(alloc, report(alloc, store, wanted.batch, output)),
        Command::Export => without_lanes(alloc, export(alloc, store, output)),
        Command::Check => without_lanes(alloc, say_whole(store, output)),
        Command::Import => without_lanes(alloc, run_import(alloc, store, input, output)),
        Command::Trial => {
            let end = run_trial(alloc, store, wanted.number, wanted.count, output);
            without_lanes(alloc, end)
        }
        Command::Migrate => {
            let end = end_carrying(migrate_journal(alloc, store, input), output);
            without_lanes(alloc, end)
        }
        Command::Ship => without_lanes(alloc, ship(store, wanted.after, output)),
        Command::Follow => {
            let end = end_carrying(follow_run(store, input, wanted.shipments), output);
            without_lanes(alloc, end)
        }
        Command::Paper => {
            let batch = wanted.batch.unwrap();
            without_lanes(alloc, paper(alloc, store, batch, output))
        }
        Command::Prove => without_lanes(alloc, prove(alloc, store, input, output)),
        Command::List => without_lanes(alloc, list(alloc, store, wanted.limit, output)),
        Command::Acts => without_lanes(alloc, acts(alloc, store, wanted.after, output)),
    }
}

// Does what is wanted over a store, and closes it.
fn do_command<S: Source, K: Sink, D: Disk, L: Lane>(
    alloc: Global,
    wanted: &Wants,
    store: Store<D>,
    input: &mut S,
    output: &mut K,
    lanes: &mut [L],
) -> Outcome<D>
    requires few { length lanes.old ≤ MAX_LANE }
    requires unended { S.ended input.old ≡ false }
    requires opened { held_of store ≡ length (entries_of store) }
    requires sound { IsSound D.Disk store }
    requires legal { IsLegal (entries_of store) }
    requires range { IsInRange (seen wanted.now) }
    requires alone { is_serve wanted.now.command ≡ false }
    requires unaudited { is_audit wanted.now.command ≡ false }
    ensures done { CommandDone D.Disk (ExplainsCommand (seen wanted.now)) store result
        (call_between S.Source K.Sink L.Cell L.Gate input.old input.new output.old output.new
        lanes.old lanes.new result.log.told result.rows) }
    ensures sound { IsSoundBook result.rows }
{
    let held = store.len();
    let end = run_command(alloc, wanted, store, input, output, lanes);
    let (disk, rows) = end.store.close();
    Outcome {
        ending: Ending::Stopped(end.stop),
        disk,
        held,
        rows,
        log: end.log,
    }
}

// No rows.
fn no_rows(alloc: Global) -> Rows
    ensures rows { result ≡ [] }
    ensures sound { IsSoundBook result }
{
    Book::new(alloc, MAX_ROWS).rows()
}

/// The outcome of a call whose disk wasn't opened as a book.
pub fn leave_unopened<D>(alloc: Global, ending: Ending, disk: D) -> Outcome<D>
    ensures ending { result.ending ≡ ending }
    ensures disk { result.disk ≡ disk }
    ensures held { result.held ≡ 0 }
    ensures rows { result.rows ≡ [] }
    ensures sound { IsSoundBook result.rows }
    ensures log { result.log.told ≡ nothing_told }
{
    Outcome {
        ending,
        disk,
        held: 0,
        rows: no_rows(alloc),
        log: LaneLog::new(alloc),
    }
}

// Opens a disk as a book, and does a command over it.
fn do_opened<S: Source, K: Sink, D: Disk, L: Lane>(
    alloc: Global,
    wanted: &Wants,
    input: &mut S,
    output: &mut K,
    disk: D,
    lanes: &mut [L],
) -> Outcome<D>
    requires few { length lanes.old ≤ MAX_LANE }
    requires unended { S.ended input.old ≡ false }
    requires range { IsInRange (seen wanted.now) }
    requires alone { is_serve wanted.now.command ≡ false }
    requires unaudited { is_audit wanted.now.command ≡ false }
    ensures ends { EndsAs D.Disk (seen wanted.now) disk result
        (call_between S.Source K.Sink L.Cell L.Gate input.old input.new output.old output.new
        lanes.old lanes.new result.log.told result.rows) }
    ensures rows { IsSoundBook result.rows }
{
    match mount(alloc, disk, wanted.limit) {
        Ok(store) => do_command(alloc, wanted, store, input, output, lanes),
        Err(refused) => leave_unopened(alloc, Ending::Unopened(refused.why), refused.disk),
    }
}

// How a call ends whose audit ended so.
fn ending_of(end: AuditEnd) -> Ending
    ensures { result ≡ ending_of end }
{
    match end {
        AuditEnd::Whole => Ending::Stopped(Stop::Finished),
        AuditEnd::WriteFault => Ending::Stopped(Stop::WriteFault),
        AuditEnd::Refused(why) => Ending::Unopened(why),
    }
}

// Audits the book on a disk, which isn't opened.
fn do_audit<K: Sink, D: Disk>(alloc: Global, most: u32, output: &mut K, disk: D) -> Outcome<D>
    ensures audits { AuditsDisk D.Disk most disk result (output_at K.Sink output.old)
        (output_at K.Sink output.new) }
    ensures rows { result.rows ≡ [] }
    ensures sound { IsSoundBook result.rows }
    ensures log { result.log.told ≡ nothing_told }
{
    let mut disk = disk;
    let end = audit_run(alloc, &mut disk, most, output);
    leave_unopened(alloc, ending_of(end), disk)
}

// Whether a command reads the disk of the book and opens none.
fn is_audit(command: Command) -> bool
    ensures { result ≡ is_audit command }
{
    matches!(command, Command::Audit)
}

// Audits the disk of a book, or opens it as a book and does a command over it.
fn do_wanted<S: Source, K: Sink, D: Disk, L: Lane>(
    alloc: Global,
    wanted: &Wants,
    input: &mut S,
    output: &mut K,
    disk: D,
    lanes: &mut [L],
) -> Outcome<D>
    requires few { length lanes.old ≤ MAX_LANE }
    requires unended { S.ended input.old ≡ false }
    requires range { IsInRange (seen wanted.now) }
    requires alone { is_serve wanted.now.command ≡ false }
    ensures ends { EndsAs D.Disk (seen wanted.now) disk result
        (call_between S.Source K.Sink L.Cell L.Gate input.old input.new output.old output.new
        lanes.old lanes.new result.log.told result.rows) }
    ensures rows { IsSoundBook result.rows }
{
    if is_audit(wanted.command) {
        return do_audit(alloc, wanted.rows, output, disk);
    }
    do_opened(alloc, wanted, input, output, disk, lanes)
}

// How a call ends whose words weren't read.
fn refused_as(why: WantsError) -> Ending
    ensures { result ≡ refused_as why }
{
    match why {
        WantsError::Usage => Ending::Usage,
        WantsError::NoMemory => Ending::Unopened(MountError::NoMemory),
    }
}

// Does what was read of the words.
fn do_answer<S: Source, K: Sink, D: Disk, L: Lane>(
    alloc: Global,
    answer: Result<Wants, WantsError>,
    input: &mut S,
    output: &mut K,
    disk: D,
    lanes: &mut [L],
) -> Outcome<D>
    requires few { length lanes.old ≤ MAX_LANE }
    requires unended { S.ended input.old ≡ false }
    requires alone { IfOk answer (λ wanted. is_serve wanted.command ≡ false) }
    requires range { IfOk answer (λ wanted. IsInRange (seen wanted)) }
    ensures words { (asked : Option Wanted) → IsRead asked answer →
        (result.ending ≡ ending.Usage) ↔ (asked ≡ None) }
    ensures usage { result.ending ≡ ending.Usage → IsUsage disk result
        (call_between S.Source K.Sink L.Cell L.Gate input.old input.new output.old output.new
        lanes.old lanes.new result.log.told result.rows) }
    ensures ends { (asked : Option Wanted) (wanted : Wanted) → IsRead asked answer →
        asked ≡ Some wanted → EndsAs D.Disk wanted disk result
        (call_between S.Source K.Sink L.Cell L.Gate input.old input.new output.old output.new
        lanes.old lanes.new result.log.told result.rows) }
    ensures rows { IsSoundBook result.rows }
{
    match answer {
        Ok(wanted) => do_wanted(alloc, &wanted, input, output, disk, lanes),
        Err(why) => leave_unopened(alloc, refused_as(why), disk),
    }
}

/// Says the last text of a call that leaves an outcome, and gives what it leaves.
pub fn end_call<K: Sink, D, L, O>(
    alloc: Global,
    outcome: Outcome<D>,
    output: &mut K,
    lanes: Vec<L>,
    doors: Vec<O>,
) -> Ended<D, L, O>
    ensures ended { result ≡ record {
      status = result.status;
      disk = outcome.disk;
      held = outcome.held;
      rows = outcome.rows;
      lanes = lanes;
      lane_ends = outcome.log.told.ends;
      doors = doors;
      door_ends = [];
    } }
    ensures last { SaysLast outcome.ending outcome.log.told [] (output_at K.Sink output.old)
        (output_at K.Sink output.new) result.status }
{
    let log = outcome.log;
    let door_ends = DoorEnds::new(Vec::new(alloc));
    let status = say_last(
        outcome.ending,
        log.unsaid(),
        log.ends(),
        door_ends.as_slice(),
        output,
    );
    Ended {
        status,
        disk: outcome.disk,
        held: outcome.held,
        rows: outcome.rows,
        lanes,
        lane_ends: log.into_ends(),
        doors,
        door_ends,
    }
}

/// Does what was read of words that don't ask to serve.
pub fn end_answer<S: Source, K: Sink, D: Disk, L: Lane, O>(
    alloc: Global,
    answer: Result<Wants, WantsError>,
    input: &mut S,
    output: &mut K,
    disk: D,
    lanes: Vec<L>,
    doors: Vec<O>,
) -> Ended<D, L, O>
    requires few { length lanes.items ≤ MAX_LANE }
    requires unended { S.ended input.old ≡ false }
    requires alone { IfOk answer (λ wanted. is_serve wanted.command ≡ false) }
    requires range { IfOk answer (λ wanted. IsInRange (seen wanted)) }
    ensures words { (asked : Option Wanted) → IsRead asked answer →
        (result.status ≡ 2) ↔ (asked ≡ None) }
    ensures usage { result.status ≡ 2 → Leaves S.Source K.Sink L.Cell L.Gate input.old input.new
        output.old output.new lanes.items (IsUsage disk) result }
    ensures ends { (asked : Option Wanted) (wanted : Wanted) → IsRead asked answer →
        asked ≡ Some wanted → Leaves S.Source K.Sink L.Cell L.Gate input.old input.new
        output.old output.new lanes.items (EndsAs D.Disk wanted disk) result }
    ensures doors { result.doors ≡ doors }
    ensures status { IsTrue (is_status result.status) }
    ensures rows { IsSoundBook result.rows }
{
    let mut lanes = lanes;
    let outcome = do_answer(alloc, answer, input, output, disk, &mut lanes);
    end_call(alloc, outcome, output, lanes, doors)
}

// Whether the first of some words is `serve`.
fn begins_serve(words: &[String]) -> bool
    ensures { result ≡ begins_serve (bytes_of words.now) }
{
    match words.first() {
        Some(word) => word.as_str() == "serve",
        None => false,
    }
}

// What words ask for whose first isn't `serve`; others are wrong words.
fn read_alone(alloc: Global, words: &[String]) -> Result<Wants, WantsError>
    ensures read { IsRead (wanted_alone (bytes_of words.now)) result }
    ensures alone { IfOk result (λ wanted. is_serve wanted.command ≡ false) }
    ensures range { IfOk result (λ wanted. IsInRange (seen wanted)) }
{
    if begins_serve(words) {
        Err(WantsError::Usage)
    } else {
        wants(alloc, words)
    }
}

/// Whether a command is `serve`.
pub fn is_serve(command: Command) -> bool
    ensures { result ≡ is_serve command }
{
    matches!(command, Command::Serve)
}

/// Does what the words say, as `hall` does, but for `serve`: words whose first is `serve` are wrong
/// words here. It waits for nobody and returns, and gives the doors back as they were handed in.
#[tactic(auto, using(crate::proofs::RequestOrder::requests_once))]
pub fn hall_alone<S: Source, K: Sink, D: Disk, L: Lane, O>(
    alloc: Global,
    words: &[String],
    input: &mut S,
    output: &mut K,
    disk: D,
    lanes: Vec<L>,
    doors: Vec<O>,
) -> Ended<D, L, O>
    requires few { length lanes.items ≤ MAX_LANE }
    requires unended { S.ended input.old ≡ false }
    ensures words { (result.status ≡ 2) ↔ (wanted_alone (bytes_of words.now) ≡ None) }
    ensures usage { result.status ≡ 2 → Leaves S.Source K.Sink L.Cell L.Gate input.old input.new
        output.old output.new lanes.items (IsUsage disk) result }
    ensures ends { (wanted : Wanted) → wanted_alone (bytes_of words.now) ≡ Some wanted →
        Leaves S.Source K.Sink L.Cell L.Gate input.old input.new output.old output.new
        lanes.items (EndsAs D.Disk wanted disk) result }
    ensures doors { result.doors ≡ doors }

    // At every status.
    ensures status { IsTrue (is_status result.status) }
    ensures rows { IsSoundBook result.rows }
    ensures requests { RequestsOnce result.rows }
{
    let answer = read_alone(alloc, words);
    end_answer(alloc, answer, input, output, disk, lanes, doors)
}
