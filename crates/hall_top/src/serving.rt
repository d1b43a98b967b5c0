//! The command `serve`: a disk is opened as a book, and a plan's lanes and doors are at work on it.
ghost use Rattle.std.specs.Prelude.{◌≡◌, ◌≢◌, ◌≤◌, length, false, IsTrue};
ghost use Rattle.hall_limits.specs.declared.TheConstants.{MAX_LANE, MAX_DOOR, MAX_ROWS};
ghost use Rattle.book_words.specs.Soundness.{IsSound as IsSoundBook};
ghost use Rattle.book_store.specs.Stores.{disk_of, entries_of, held_of, Hangs, IsSound};
ghost use Rattle.text_streams.specs.Streams.{input_at, output_at};
ghost use Rattle.serve_run.specs.Works.{lane_site, door_site};
ghost use Rattle.serve_run.specs.Jobs.{handed_in};
ghost use Rattle.serve_run.specs.Serving.{moment};
ghost use Rattle.call_endings.specs.Endings.{is_status};
ghost use Rattle.hall_top.specs.Serving.{EndsServe, ServeDone};

use book_mount::mount;
use book_store::Store;
use disk_core::{Disk, Door, Sink, Source};
use hall_alone::{Ended, Ending, end_call, leave_unopened, say_last};
use lane_worker::Lane;
use serve_run::{JobNotices, ServeEnd, SetupNotices, run_serve};
use std::alloc::Global;
use std::sync::Wait;
use std::thread::Threads;

// Serves over a store, says the last line, and closes the store.
fn serve_store<
    S: Source,
    K: Sink,
    N: SetupNotices + JobNotices + Sync,
    D: Disk + Send,
    L: Lane + Send + Drop,
    O: Door + Send + Drop,
    R: Threads + Wait + Sync,
>(
    rt: &R,
    alloc: Global,
    store: Store<D>,
    input: &mut S,
    output: &mut K,
    notices: &mut N,
    lanes: Vec<L>,
    doors: Vec<O>,
) -> Ended<D, L, O>
    requires few_lanes { length lanes.items ≤ MAX_LANE }
    requires few_doors { length doors.items ≤ MAX_DOOR }
    requires unended { S.ended input.old ≡ false }
    requires opened { held_of store ≡ length (entries_of store) }
    requires sound { IsSound D.Disk store }
    requires calm { ¬ Hangs store }
    ensures done { ServeDone D.Disk (lane_site L.Cell L.Gate) (door_site O.Source O.Door.own)
        store (moment (input_at S.Source input.old) (output_at K.Sink output.old)
        (D.faults (disk_of store)) (handed_in lanes.items doors.items))
        (input_at S.Source input.new) (output_at K.Sink output.new) result }
    ensures sound { IsSoundBook result.rows }
{
    let held = store.len();
    let end = run_serve(rt, alloc, store, input, output, notices, lanes, doors);
    let ServeEnd {
        stop,
        store,
        lanes,
        lane_ends,
        doors,
        door_ends,
    } = end;
    let status = say_last(
        Ending::Served(stop),
        b"",
        lane_ends.as_slice(),
        door_ends.as_slice(),
        output,
    );
    let (disk, rows) = store.close();
    Ended {
        status,
        disk,
        held,
        rows,
        lanes,
        lane_ends,
        doors,
        door_ends,
    }
}

/// Opens a disk as a book of so many rows at most, and serves over it.
pub fn serve<
    S: Source,
    K: Sink,
    N: SetupNotices + JobNotices + Sync,
    D: Disk + Send,
    L: Lane + Send + Drop,
    O: Door + Send + Drop,
    R: Threads + Wait + Sync,
>(
    rt: &R,
    alloc: Global,
    limit: u32,
    input: &mut S,
    output: &mut K,
    notices: &mut N,
    disk: D,
    lanes: Vec<L>,
    doors: Vec<O>,
) -> Ended<D, L, O>
    requires few_lanes { length lanes.items ≤ MAX_LANE }
    requires few_doors { length doors.items ≤ MAX_DOOR }
    requires unended { S.ended input.old ≡ false }
    requires least { 1 ≤ limit }
    requires most { limit ≤ MAX_ROWS }
    ensures serves { EndsServe S.Source K.Sink D.Disk L.Cell L.Gate O.Source O.Door.own limit
        input.old input.new output.old output.new disk lanes doors result }
    ensures status { IsTrue (is_status result.status) × (result.status ≢ 2) }
    ensures rows { IsSoundBook result.rows }
{
    match mount(alloc, disk, limit) {
        Ok(store) => serve_store(rt, alloc, store, input, output, notices, lanes, doors),
        Err(refused) => {
            let outcome = leave_unopened(alloc, Ending::Unopened(refused.why), refused.disk);
            end_call(alloc, outcome, output, lanes, doors)
        }
    }
}
