//! A whole `serve` over a book.
ghost use Rattle.std.specs.Prelude.{◌≡◌, ◌≢◌, ◌≤◌, All, IfOk, false, length, true};
ghost use Rattle.std.specs.List.{list_any};
ghost use Rattle.hall_limits.specs.declared.TheConstants.{MAX_DOOR, MAX_LANE};
ghost use Rattle.book_store.specs.Stores.{disk_of, entries_of, held_of, Hangs, IsSound};
ghost use Rattle.hall_plan.specs.Limits.{IsNumbered};
ghost use Rattle.hall_plan.specs.Plans.{are_distinct};
ghost use Rattle.session_jobs.specs.declared.work.TheConstants.{MAX_JOBS};
ghost use Rattle.session_jobs.specs.Works.{lane_site, door_site};
ghost use Rattle.store_runs.specs.Books.{stored_book};
ghost use Rattle.store_runs.specs.declared.stop.Stop.TheVariants.{NoMemory};
ghost use Rattle.text_streams.specs.Streams.{input_at, output_at};
ghost use Rattle.job_reports.specs.declared.stop.JobsStop.TheVariants.{WriteFault};
ghost use Rattle.job_reports.specs.declared.stop.ServeStop.TheVariants.{Early};
ghost use Rattle.serve_run.specs.Jobs.{handed_in, handed_back};
ghost use Rattle.serve_run.specs.Keeping.{ServeGoes};
ghost use Rattle.serve_run.specs.Plans.{end_handed, EndsPlan, IsFinished, IsRoomFor, IsTextRoom};
ghost use Rattle.serve_run.specs.Plans.{unkept, RestsBehind, Says};
ghost use Rattle.serve_run.specs.Rooms.{IsEmpty, HasRoomFor, lists_of};
ghost use Rattle.serve_run.specs.Serving.{door_lacks, lane_lacks, moment, some_lack, ExplainsServe};

use crate::jobs::{HandedBack, hand_back, push_doors, push_lanes, take_room};
use crate::lines::{compose, take_text};
use crate::prepare::{Prepared, Unprepared, prepare};
use book_store::Store;
use disk_core::{Disk, Door, Sink, Source};
use job_reports::{DoorEnds, JobsStop, ServeStop};
use lane_worker::{Lane, LaneEnd, LaneStop};
use office_door::{DoorEnd, DoorStop};
use script_events::LaneEnds;
use session_jobs::{JobNotices, JobsEnd, Work, run_jobs};
use setup_run::SetupNotices;
use std::alloc::{AllocError, Global};
use std::sync::Wait;
use std::thread::Threads;
use store_runs::{Stop, keep_snapshot};
use text_streams::write_text;

/// What `serve` leaves.
pub struct ServeEnd<D: Disk, L, O> {
    pub stop: ServeStop,
    pub store: Store<D>,
    /// The lanes that were handed in.
    pub lanes: Vec<L>,
    /// How each lane ended; none where no job ran.
    pub lane_ends: LaneEnds,
    /// The doors that were handed in.
    pub doors: Vec<O>,
    /// How each door ended; none where no job ran.
    pub door_ends: DoorEnds,
}

// The room that is taken before jobs run: for them, for what they hand back, and for what is said.
#[derive(Drop)]
struct Room<L, O> {
    jobs: Vec<Work<L, O>>,
    handed: HandedBack<L, O>,
    text: Vec<u8>,
}

// Takes the room for so many jobs.
fn take_all<L: Drop, O: Drop>(alloc: Global, count: usize) -> Result<Room<L, O>, AllocError>
    ensures room { IfOk result (IsRoomFor count) }
{
    Ok(Room {
        jobs: Vec::with_capacity(alloc, count)?,
        handed: take_room(alloc, count)?,
        text: take_text(alloc)?,
    })
}

// The end where no job ran.
fn end_early<D: Disk, L, O>(
    alloc: Global,
    early: Unprepared<D>,
    lanes: Vec<L>,
    doors: Vec<O>,
) -> ServeEnd<D, L, O>
    ensures stop { result.stop ≡ early.stop }
    ensures store { result.store ≡ early.store }
    ensures handed { end_handed result ≡ handed_in lanes.items doors.items }
{
    let Unprepared { store, stop } = early;
    ServeEnd {
        stop,
        store,
        lanes,
        lane_ends: LaneEnds::new(Vec::new(alloc)),
        doors,
        door_ends: DoorEnds::new(Vec::new(alloc)),
    }
}

// The end that stopped so, with what was handed back.
fn end_with<D: Disk, L, O>(
    stop: ServeStop,
    store: Store<D>,
    handed: HandedBack<L, O>,
) -> ServeEnd<D, L, O>
    ensures stop { result.stop ≡ stop }
    ensures store { result.store ≡ store }
    ensures handed { end_handed result ≡ lists_of handed }
{
    ServeEnd {
        stop,
        store,
        lanes: handed.lanes,
        lane_ends: LaneEnds::new(handed.lane_ends),
        doors: handed.doors,
        door_ends: DoorEnds::new(handed.door_ends),
    }
}

// Whether memory was lacking for a lane.
fn lane_lacks(end: &LaneEnd) -> bool
    ensures { result ≡ lane_lacks end.now.stop }
{
    match end.stop {
        LaneStop::NoMemory => true,
        _ => false,
    }
}

// Whether memory was lacking for a door.
fn door_lacks(end: &DoorEnd) -> bool
    ensures { result ≡ door_lacks end.now.stop }
{
    match end.stop {
        DoorStop::NoMemory => true,
        _ => false,
    }
}

// Whether memory was lacking for a lane of some.
fn lanes_lack(ends: &[LaneEnd]) -> bool
    ensures { result ≡ list_any (λ end. lane_lacks end.stop) ends.now }
{
    ends.iter().any(lane_lacks)
}

// Whether memory was lacking for a door of some.
fn doors_lack(ends: &[DoorEnd]) -> bool
    ensures { result ≡ list_any (λ end. door_lacks end.stop) ends.now }
{
    ends.iter().any(door_lacks)
}

// Whether memory was lacking for a lane or for a door.
fn some_lack<L, O>(handed: &HandedBack<L, O>) -> bool
    ensures { result ≡ some_lack (lists_of handed.now) }
{
    lanes_lack(&handed.lane_ends) || doors_lack(&handed.door_ends)
}

// Keeps a snapshot behind the jobs, where nothing failed and rows were added to those of before.
fn keep_rows<D: Disk>(store: &mut Store<D>, faults: u64, lack: bool) -> JobsStop
    requires sound { IsSound D.Disk store.old }
    ensures kept { RestsBehind D.Disk faults lack store.old store.new result }
{
    if faults > 0 {
        return JobsStop::DiskFault;
    }
    if lack {
        return JobsStop::NoMemory;
    }
    match keep_snapshot(store) {
        Ok(()) => JobsStop::Finished,
        Err(stop) => unkept(stop),
    }
}

// How jobs stop behind which no snapshot was kept: the disk failed, or there was no memory.
fn unkept(stop: Stop) -> JobsStop
    ensures { result ≡ unkept stop }
{
    match stop {
        Stop::DiskFault(_) => JobsStop::DiskFault,
        _ => JobsStop::NoMemory,
    }
}

// Says what is to be said behind jobs that stopped so.
fn say<K: Sink>(output: &mut K, text: &[u8], stop: JobsStop) -> JobsStop
    requires { stop ≢ WriteFault }
    ensures says { Says (output_at K.Sink output.old) (output_at K.Sink output.new) text.now stop
        result }
{
    match write_text(output, text) {
        Ok(()) => stop,
        Err(_) => JobsStop::WriteFault,
    }
}

// What comes behind the jobs: a snapshot of their rows, their lines and the summary.
fn finish<K: Sink, D: Disk, L, O>(
    end: JobsEnd<D, L, O>,
    room: HandedBack<L, O>,
    text: Vec<u8>,
    output: &mut K,
) -> ServeEnd<D, L, O>
    requires sound { IsSound D.Disk end.store }
    requires few { length end.jobs.items ≤ MAX_JOBS }
    requires empty { IsEmpty room }
    requires room { HasRoomFor (length end.jobs.items) room }
    requires text { IsTextRoom text }
    ensures ends { IsFinished D.Disk end (output_at K.Sink output.old) (output_at K.Sink output.new)
        result }
{
    let JobsEnd {
        mut store,
        jobs,
        ran: _,
        faults,
    } = end;
    let mut text = text;
    compose(&jobs, store.book(), &mut text);
    let handed = hand_back(jobs, room);
    let kept = keep_rows(&mut store, faults, some_lack(&handed));
    let stop = say(output, &text, kept);
    end_with(ServeStop::Ran(stop), store, handed)
}

// Runs the jobs of a plan that was prepared.
fn serve_plan<
    K: Sink,
    N: JobNotices + Sync,
    D: Disk + Send,
    L: Lane + Send + Drop,
    O: Door + Send + Drop,
    R: Threads + Wait + Sync,
>(
    rt: &R,
    alloc: Global,
    prepared: Prepared<D>,
    output: &mut K,
    notices: &N,
    lanes: Vec<L>,
    doors: Vec<O>,
) -> ServeEnd<D, L, O>
    requires few_lanes { length lanes.items ≤ MAX_LANE }
    requires few_doors { length doors.items ≤ MAX_DOOR }
    requires sound { IsSound D.Disk prepared.store }
    requires calm { ¬ Hangs prepared.store }
    requires lanes { length prepared.lanes ≡ length lanes.items }
    requires numbered { All IsNumbered prepared.lanes }
    requires distinct { are_distinct prepared.lanes ≡ true }
    ensures ends { EndsPlan D.Disk (lane_site L.Cell L.Gate) (door_site O.Source O.Door.own)
        prepared.store prepared.lanes (handed_in lanes.items doors.items)
        (output_at K.Sink output.old) (output_at K.Sink output.new) result result.stop }
{
    let Prepared {
        store,
        lanes: planned,
    } = prepared;
    let Ok(room) = take_all(alloc, lanes.len() + doors.len()) else {
        return end_early(alloc, without_memory(store), lanes, doors);
    };
    let Room {
        mut jobs,
        handed,
        text,
    } = room;
    push_lanes(&mut jobs, lanes, planned.as_slice());
    push_doors(&mut jobs, doors);
    notices.begin(store.len());
    let end = run_jobs(rt, alloc, notices, store, jobs);
    if end.ran {
        finish(end, handed, text, output)
    } else {
        give_back(end, handed)
    }
}

// Hands back jobs that didn't run, for want of memory.
fn give_back<D: Disk, L, O>(end: JobsEnd<D, L, O>, room: HandedBack<L, O>) -> ServeEnd<D, L, O>
    requires empty { IsEmpty room }
    requires room { HasRoomFor (length end.jobs.items) room }
    ensures stop { result.stop ≡ Early NoMemory }
    ensures store { result.store ≡ end.store }
    ensures handed { end_handed result ≡ handed_back end.jobs.items }
{
    let JobsEnd {
        store,
        jobs,
        ran: _,
        faults: _,
    } = end;
    let early = ServeStop::Early(Stop::NoMemory);
    end_with(early, store, hand_back(jobs, room))
}

// No job runs over this store, for want of memory.
fn without_memory<D: Disk>(store: Store<D>) -> Unprepared<D>
    ensures { result ≡ record { store = store; stop = Early NoMemory } }
{
    Unprepared {
        store,
        stop: ServeStop::Early(Stop::NoMemory),
    }
}

/// Does what a plan says over a book: its setup is asked as a script is, with nothing printed, and
/// which of its lines are refused is told; room is made for its rows, and for all that is handed
/// back; then every lane works its batch and every door serves its connections, all at once, each in
/// a thread of its own where one can be made. When the last has ended, a snapshot is kept where rows
/// were added and nothing failed, and the line of each lane, the line of each door and the summary go
/// out.
///
/// No job runs at `BadPlan` and at `Early`: what the setup added stands. A book is asked by one job
/// at a time; which of two that wait comes first isn't said.
pub fn run_serve<
    S: Source,
    K: Sink,
    N: SetupNotices + JobNotices + Sync,
    D: Disk + Send,
    L: Lane + Send + Drop,
    O: Door + Send + Drop,
    R: Threads + Wait + Sync,
>(
    rt: &R,
    alloc: Global,
    store: Store<D>,
    input: &mut S,
    output: &mut K,
    notices: &mut N,
    lanes: Vec<L>,
    doors: Vec<O>,
) -> ServeEnd<D, L, O>
    requires few_lanes { length lanes.items ≤ MAX_LANE }
    requires few_doors { length doors.items ≤ MAX_DOOR }
    requires unended { S.ended input.old ≡ false }
    requires opened { held_of store ≡ length (entries_of store) }
    requires sound { IsSound D.Disk store }
    requires calm { ¬ Hangs store }
    ensures explained { ExplainsServe (lane_site L.Cell L.Gate) (door_site O.Source O.Door.own)
        (stored_book store)
        (moment (input_at S.Source input.old) (output_at K.Sink output.old)
        (D.faults (disk_of store)) (handed_in lanes.items doors.items))
        (moment (input_at S.Source input.new) (output_at K.Sink output.new)
        (D.faults (disk_of result.store)) (end_handed result))
        (entries_of result.store) result.stop }
    ensures goes { ServeGoes D.Disk store result.store result.stop }
{
    match prepare(alloc, store, input, notices, lanes.len() as u8) {
        Ok(prepared) => serve_plan(rt, alloc, prepared, output, &*notices, lanes, doors),
        Err(early) => end_early(alloc, early, lanes, doors),
    }
}
