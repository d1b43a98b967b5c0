//! The begin of a session, and the whole of it.
ghost use Rattle.std.specs.Prelude.{◌≡◌, ◌≢◌, ◌+◌, ◌<◌, ◌≤◌, [], AllPairs, IfOk, List, length, map, true, false, vec_len};
ghost use Rattle.book_words.specs.declared.act.Entry.{Entry as Entered};
ghost use Rattle.book_words.specs.Balance.{IsBalanced};
ghost use Rattle.book_store.specs.Stores.{disk_of, entries_of, limit_of, spare_of, held_of, Hangs, IsSound};
ghost use Rattle.office_door.specs.Doors.{FailedSoOften};
ghost use Rattle.shared_book.specs.Sessions.{KeepsRun, RestsOnDisk};
ghost use Rattle.session_jobs.specs.declared.work.TheConstants.{MAX_JOBS};
ghost use Rattle.session_jobs.specs.Ends.{EndsSession};
ghost use Rattle.session_jobs.specs.Jobs.{IsEmptyCrew, HasRoomFor, new_job, with_passes};
ghost use Rattle.session_jobs.specs.Runs.{HaveRun, IsUnbegun};
ghost use Rattle.session_jobs.specs.Works.{number_of, lane_site, door_site};

use crate::crew::employ;
use crate::notices::JobNotices;
use crate::session::{Crew, hold};
use crate::work::Work;
use book_store::Store;
use book_words::Entry;
use disk_core::{Disk, Door};
use lane_worker::Lane;
use std::alloc::{AllocError, Global};
use std::marker::Brand;
use std::sync::Wait;
use std::sync::ledger::{Blank, Ledger};
use std::thread::Threads;
use turn_pass::{BookSeat, Turn};

/// What the jobs of a session leave.
pub struct JobsEnd<D: Disk, L, O> {
    pub store: Store<D>,
    /// The jobs, in their order.
    pub jobs: Vec<Work<L, O>>,
    /// Whether they ran; they didn't where there was no memory to begin.
    pub ran: bool,
    /// How many faults of the disk their callers were answered, up to the greatest number of 64
    /// bits.
    pub faults: u64,
}

// Room for so many jobs, and for what comes back from them.
fn take_room<L: Drop, O: Drop, A: Ledger, B: Ledger>(
    alloc: Global,
    count: usize,
) -> Result<Crew<L, O, A, B>, AllocError>
    ensures empty { IfOk result IsEmptyCrew }
    ensures room { IfOk result (HasRoomFor count) }
{
    Ok(Crew {
        jobs: Vec::with_capacity(alloc, count)?,
        works: Vec::with_capacity(alloc, count)?,
        ends: Vec::with_capacity(alloc, count)?,
    })
}

// The jobs of these works, each with a new pass of its number, in the room that was taken for them.
fn fill<L, O, A: Ledger, B: Ledger>(
    works: Vec<Work<L, O>>,
    turn: &Turn<Entry, A, B>,
    seat: &mut BookSeat<Entry, A, B>,
    room: Crew<L, O, A, B>,
) -> Crew<L, O, A, B>
    requires turn { seat.old.table ≡ turn.now.table }
    requires unused { seat.old.bys ≡ [] }
    requires apart { AllPairs (λ v w. number_of v ≢ number_of w) works.items }
    requires row_parts { vec_len works < seat.old.row_parts }
    requires fault_parts { vec_len works < seat.old.fault_parts }
    requires empty { IsEmptyCrew room }
    requires room { HasRoomFor (vec_len works) room }
    ensures jobs { result.jobs.items ≡ map (new_job seat.old) works.items }
    ensures seat { seat.new ≡ with_passes seat.old (map number_of works.items) }
    ensures count { vec_len result.jobs ≡ length works.items }
    ensures empty { (result.works.items ≡ []) × (result.ends.items ≡ []) }
    ensures room { HasRoomFor (vec_len result.jobs) result }
{
    let Crew {
        jobs,
        works: done,
        ends,
    } = room;
    Crew {
        jobs: employ(works, turn, seat, jobs),
        works: done,
        ends,
    }
}

// A session of these ledgers, from its Turn to its end.
fn hold_session<
    L: Lane + Send + Drop,
    O: Door + Send + Drop,
    D: Disk + Send,
    A: Ledger + Send + Sync,
    B: Ledger + Send + Sync,
    M: JobNotices + Sync,
    R: Threads + Wait + Sync,
>(
    rt: &R,
    alloc: Global,
    notices: &M,
    store: Store<D>,
    jobs: Vec<Work<L, O>>,
    rows: Blank,
    faults: Blank,
) -> JobsEnd<D, L, O>
    requires sound { IsSound D.Disk store }
    requires calm { ¬ Hangs store }
    requires apart { AllPairs (λ v w. number_of v ≢ number_of w) jobs.items }
    requires rows { (rows.name ≡ A.name) × (rows.parts ≡ A.parts)
        × (rows.parts ≡ length jobs.items + 1) }
    requires faults { (faults.name ≡ B.name) × (faults.parts ≡ B.parts)
        × (faults.parts ≡ length jobs.items + 1) }
    ensures ends { EndsSession D.Disk (lane_site L.Cell L.Gate) (door_site O.Source O.Door.own)
        store jobs result }
{
    let Ok(room) = take_room(alloc, jobs.len()) else {
        return unbegun(store, jobs);
    };
    let Ok((turn, mut seat)) = Turn::<Entry, A, B>::begin(alloc, store.len(), rows, faults) else {
        return unbegun(store, jobs);
    };
    let crew = fill(jobs, &turn, &mut seat, room);
    let (store, jobs, faults) = hold::<L, O, D, A, B, Brand, M, R>(
        rt, alloc, notices, store, turn, seat, crew,
    );
    JobsEnd {
        store,
        jobs,
        ran: true,
        faults,
    }
}

// No job ran.
fn unbegun<D: Disk, L, O>(store: Store<D>, jobs: Vec<Work<L, O>>) -> JobsEnd<D, L, O>
    ensures { result ≡ record { store = store; jobs = jobs; ran = false; faults = 0 } }
{
    JobsEnd {
        store,
        jobs,
        ran: false,
        faults: 0,
    }
}

/// Runs jobs at once over a store in which nothing hangs, each in a thread of its own where one can
/// be made, and waits for the last of them. Each job is a caller of its own number, whose rows bear
/// it; all room is taken before the first begins, and where there is none nothing is done. While the
/// store has room for a row more, a weighing finds memory. How each job ends is told at once.
pub fn run_jobs<
    L: Lane + Send + Drop,
    O: Door + Send + Drop,
    D: Disk + Send,
    M: JobNotices + Sync,
    R: Threads + Wait + Sync,
>(rt: &R, alloc: Global, notices: &M, store: Store<D>, jobs: Vec<Work<L, O>>) -> JobsEnd<D, L, O>
    requires sound { IsSound D.Disk store }
    requires calm { ¬ Hangs store }
    requires apart { AllPairs (λ v w. number_of v ≢ number_of w) jobs.items }
    requires few { length jobs.items ≤ MAX_JOBS }
    ensures ran { result.ran ≡ true → HaveRun (lane_site L.Cell L.Gate)
        (door_site O.Source O.Door.own) (limit_of store) (spare_of store) (entries_of store)
        (entries_of result.store) result.faults jobs.items result.jobs.items }
    ensures unbegun { result.ran ≡ false → IsUnbegun store jobs result }
    ensures faults { FailedSoOften (D.faults (disk_of store)) (D.faults (disk_of result.store))
        result.faults }
    ensures settled { result.faults ≡ 0 → ¬ Hangs result.store }
    ensures still { result.faults ≡ 0
        → length (entries_of result.store) ≤ length (entries_of store)
        → D.reads (disk_of result.store) ≡ D.reads (disk_of store) }
    ensures sound { IsSound D.Disk result.store }
    ensures balanced { IsBalanced (entries_of result.store) }
    ensures limit { limit_of result.store ≡ limit_of store }
    ensures held { held_of result.store ≡ held_of store }
    ensures kept { RestsOnDisk D.Disk store → (held : List Entered) (start : D)
        → KeepsRun D.Disk held start store → KeepsRun D.Disk held start result.store }
{
    let parts = jobs.len() as u64 + 1;
    let (rows, faults) = (Blank::new(parts), Blank::new(parts));
    hold_session::<L, O, D, Brand, Brand, M, R>(rt, alloc, notices, store, jobs, rows, faults)
}
