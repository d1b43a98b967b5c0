//! The program `hall`: the words of the command line, the real streams, and the real devices that
//! the words ask for.
#![tactic(auto)]

ghost use Rattle.std.specs.Prelude.{◌≡◌, ◌↔◌, ◌≤◌, false, None, length, IsErr, IfOk};
ghost use Rattle.std.specs.Process.{exit_status};
ghost use Rattle.hall_limits.specs.declared.TheConstants.{MAX_LANE, MAX_DOOR};
ghost use Rattle.command_line.specs.Words.{bytes_of, wanted_of};
ghost use Rattle.text_streams.specs.Streams.{output_at};
ghost use Rattle.call_endings.specs.Endings.{LacksMemory};
ghost use Rattle.hall_cli.specs.Called.{HasCalled};

use bad_lines::{KeptInput, KeptOutput, WatchedPlan, explain, explain_words};
use command_line::{Input, Wants, WantsError, needs_of, wants, words};
use disk_core::{Disk, Door, Sink, Source, StdSink, StdSource};
use hall_devices::{Unopened, Waiting, find_stop, lock_cells, open_disk, open_doors, open_lanes};
use hall_top::{Ending, MountError, end_unopened, end_without_memory, hall};
use lane_worker::{Cell, EitherCell, Gate, Lane, PairLane};
use run_notices::RunNotices;
use std::alloc::AllocError;
use std::io::{IsTerminal, Write};
use std::process::ExitCode;
use std::sync::Wait;
use std::thread::Threads;
use stop_file::StopFile;

// What the program and the books that it writes are called, for people.
const VERSION: &str = "0.2, books of version 2";

// The end of a call whose devices aren't there: nothing was done.
fn end_without<K: Sink>(why: Unopened, output: &mut K) -> ExitCode {
    ExitCode::from(match why {
        Unopened::NoMemory => end_without_memory(output),
        Unopened::NoPort => end_unopened(Ending::Unopened(MountError::DiskFault), output),
    })
}

// Does what the words say over a disk, with these lanes and doors: the call of `hall`, whose
// contract says what that does. What people should know of the rows is said, and the exit status is
// that of the call.
fn run<
    S: Source,
    K: Sink,
    D: Disk + Send + Drop,
    L: Lane + Send + Drop,
    O: Door + Send + Drop,
    R: AllocGlobal + Threads + Wait + Sync,
>(
    rt: &R,
    words: &[String],
    input: &mut S,
    output: &mut K,
    notices: &mut RunNotices<HostRuntime>,
    disk: D,
    lanes: Vec<L>,
    doors: Vec<O>,
) -> ExitCode
    requires few { length lanes.items ≤ MAX_LANE }
    requires few_doors { length doors.items ≤ MAX_DOOR }
    requires unended { S.ended input.old ≡ false }
    ensures words { (exit_status result ≡ 2) ↔ (wanted_of (bytes_of words.now) ≡ None) }
    ensures called { HasCalled S.Source K.Sink D.Disk L.Cell L.Gate O.Source O.Door.own
        (bytes_of words.now) input.old input.new output.old output.new disk lanes doors
        (exit_status result) }
{
    let ended = hall(
        rt,
        rt.alloc(),
        words,
        input,
        output,
        notices,
        disk,
        lanes,
        doors,
    );
    notices.say_rows(ended.held, ended.rows.as_slice());
    ExitCode::from(ended.status)
}

// Does what the words say over the disk of the book, with these lanes and doors, where there was
// memory to open it.
fn over_book<
    S: Source,
    K: Sink,
    D: Disk + Send + Drop,
    L: Lane + Send + Drop,
    O: Door + Send + Drop,
    R: AllocGlobal + Threads + Wait + Sync,
>(
    rt: &R,
    words: &[String],
    input: &mut S,
    output: &mut K,
    notices: &mut RunNotices<HostRuntime>,
    opened: Result<D, AllocError>,
    lanes: Vec<L>,
    doors: Vec<O>,
) -> ExitCode
    requires few { length lanes.items ≤ MAX_LANE }
    requires few_doors { length doors.items ≤ MAX_DOOR }
    requires unended { S.ended input.old ≡ false }
    ensures called { IfOk opened (λ disk. HasCalled S.Source K.Sink D.Disk L.Cell L.Gate O.Source
        O.Door.own (bytes_of words.now) input.old input.new output.old output.new disk lanes doors
        (exit_status result)) }
    ensures no_memory { IsErr opened → LacksMemory (output_at K.Sink output.old)
        (output_at K.Sink output.new) (exit_status result) }
    ensures unread { IsErr opened → input.new ≡ input.old }
{
    match opened {
        Ok(disk) => run(rt, words, input, output, notices, disk, lanes, doors),
        Err(_) => ExitCode::from(end_without_memory(output)),
    }
}

// What a call asks for, and the handles that it is done with.
#[derive(Drop)]
struct Call<'a, R> {
    threads: &'a R,
    rt: &'a HostRuntime,
    words: &'a [String],
    wanted: &'a Wants,
    stop: &'a StopFile,
}

// Does a call over the disk of the book that it asks for, with these lanes and doors.
fn with_doors<
    S: Source,
    K: Sink,
    L: Lane + Send + Drop,
    O: Door + Send + Drop,
    R: AllocGlobal + Threads + Wait + Sync,
>(call: &Call<R>, input: &mut S, output: &mut K, lanes: Vec<L>, doors: Vec<O>) -> ExitCode
    requires few { length lanes.items ≤ MAX_LANE }
    requires few_doors { length doors.items ≤ MAX_DOOR }
    requires unended { S.ended input.old ≡ false }
{
    let rt = *call.rt;
    let at_terminal = rt.stderr().is_terminal();
    let mut notices = RunNotices::new(rt, rt.alloc(), at_terminal, call.wanted);
    notices.say_memory();
    let opened = open_disk(rt, call.wanted, at_terminal);
    over_book(
        call.threads,
        call.words,
        input,
        output,
        &mut notices,
        opened,
        lanes,
        doors,
    )
}

// Does a call with these lanes, and with the doors that it asks for.
fn with_lanes<S: Source, K: Sink, L: Lane + Send + Drop, R: AllocGlobal + Threads + Wait + Sync>(
    call: &Call<R>,
    input: &mut S,
    output: &mut K,
    lanes: Vec<L>,
) -> ExitCode
    requires few { length lanes.items ≤ MAX_LANE }
    requires unended { S.ended input.old ≡ false }
{
    match open_doors(*call.rt, call.wanted, call.stop) {
        Ok(doors) => with_doors(call, input, output, lanes, doors),
        Err(why) => end_without(why, output),
    }
}

// Does a call with these lanes, whatever their cells and gates are: the type of a lane of the program
// is deep, and a call at half of its depth costs the check half as much.
fn with_parts<
    S: Source,
    K: Sink,
    A: Cell + Send + Drop,
    B: Cell + Send + Drop,
    G: Gate + Send + Drop,
    R: AllocGlobal + Threads + Wait + Sync,
>(
    call: &Call<R>,
    input: &mut S,
    output: &mut K,
    lanes: Vec<PairLane<EitherCell<A, B>, G>>,
) -> ExitCode
    requires few { length lanes.items ≤ MAX_LANE }
    requires unended { S.ended input.old ≡ false }
{
    with_lanes(call, input, output, lanes)
}

// Does a call with the lanes that it asks for, unless another hall has their folder.
fn with_folder<S: Source, K: Sink, R: AllocGlobal + Threads + Wait + Sync>(
    call: &Call<R>,
    input: &mut S,
    output: &mut K,
) -> ExitCode
    requires unended { S.ended input.old ≡ false }
{
    let Some(_lock) = lock_cells(call.rt, call.wanted) else {
        let ending = Ending::Unopened(MountError::DiskFault);
        return ExitCode::from(end_unopened(ending, output));
    };
    match open_lanes(call.rt, call.wanted, call.stop) {
        Ok(lanes) => with_parts(call, input, output, lanes),
        Err(why) => end_without(why, output),
    }
}

// Does a call whose input is standard input. Standard error says which line is bad, and why.
fn do_call<W: Write + Drop, R: AllocGlobal + Threads + Wait + Sync>(
    call: &Call<R>,
    said: &mut KeptOutput<W>,
) -> ExitCode {
    let rt = *call.rt;
    let asked = needs_of(call.wanted.command).input;
    let is_plan = asked == Input::Plan;
    let mut read = KeptInput::new(rt.alloc(), Waiting::to_read(rt.stdin()), asked);
    let mut input = StdSource::new(WatchedPlan::new(&mut read, rt, is_plan));
    let status = with_folder(call, &mut input, &mut StdSink::new(&mut *said));
    explain(&rt, rt.alloc(), &read, said, call.wanted.lanes);
    status
}

// Does what the words want.
fn do_wanted<W: Write + Drop, R: AllocGlobal + Threads + Wait + Sync>(
    threads: &R,
    rt: &HostRuntime,
    words: &[String],
    wanted: &Wants,
    said: &mut KeptOutput<W>,
) -> ExitCode {
    match find_stop(rt, wanted) {
        Ok(stop) => {
            let call = Call {
                threads,
                rt,
                words,
                wanted,
                stop: &stop,
            };
            do_call(&call, said)
        }
        Err(why) => end_without(why, &mut StdSink::new(said)),
    }
}

// Does what the words say, where they are words of the program.
fn do_words<W: Write + Drop, R: AllocGlobal + Threads + Wait + Sync>(
    threads: &R,
    rt: &HostRuntime,
    words: &[String],
    said: &mut KeptOutput<W>,
) -> ExitCode {
    match wants(rt.alloc(), words) {
        Ok(wanted) => do_wanted(threads, rt, words, &wanted, said),
        Err(WantsError::NoMemory) => ExitCode::from(end_without_memory(&mut StdSink::new(said))),
        Err(WantsError::Usage) => {
            explain_words(rt, VERSION, words);
            ExitCode::from(end_unopened(Ending::Usage, &mut StdSink::new(said)))
        }
    }
}

fn main(rt: HostRuntime) -> ExitCode {
    let mut said = KeptOutput::new(Waiting::to_write(rt.stdout()));
    match words(&rt) {
        Ok(words) => do_words(&rt, &rt, &words, &mut said),
        Err(_) => ExitCode::from(end_without_memory(&mut StdSink::new(&mut said))),
    }
}
