//! A session that has begun: all its jobs at once, and its end.
ghost use Rattle.std.specs.Prelude.{◌≡◌, ◌+◌, [], All, vec_len};
ghost use Rattle.book_store.specs.Stores.{IsSound};
ghost use Rattle.shared_book.specs.Sessions.{Begins};
ghost use Rattle.shared_book.specs.Locked.{IsNewSeat};
ghost use Rattle.shared_book.specs.Passes.{IsTurnOf};
ghost use Rattle.std.specs.List.{AllZip};
ghost use Rattle.session_jobs.specs.Jobs.{HasRoomFor, IsReady, IsRun};
ghost use Rattle.session_jobs.specs.Ends.{HasEnded};
ghost use Rattle.session_jobs.specs.Works.{lane_site, door_site};

use crate::crew::dismiss;
use crate::job::Job;
use crate::notices::JobNotices;
use crate::work::Work;
use book_store::Store;
use book_words::Entry;
use disk_core::{Disk, Door};
use lane_worker::Lane;
use shared_book::{Closed, PassEnd, Session, Shared};
use std::alloc::Global;
use std::sync::Wait;
use std::sync::ledger::Ledger;
use std::thread;
use std::thread::Threads;
use turn_pass::{BookSeat, Turn};

/// What the jobs of a session are made of, and the room for what comes back from them.
#[derive(Drop)]
pub struct Crew<L, O, A: Ledger, B: Ledger> {
    pub jobs: Vec<Job<L, O, A, B>>,
    pub works: Vec<Work<L, O>>,
    pub ends: Vec<PassEnd<A, B>>,
}

/// Runs all jobs at once, each in a thread of its own where one can be made.
fn run_all<
    L: Lane + Send,
    O: Door + Send,
    D: Disk + Send,
    A: Ledger + Send + Sync,
    B: Ledger + Send + Sync,
    N: Session + Send + Sync,
    M: JobNotices + Sync,
    R: Threads + Wait + Sync,
>(rt: &R, alloc: Global, shared: &Shared<D, A, B, N>, notices: &M, jobs: &mut [Job<L, O, A, B>])
    requires ready { All (IsReady N.Session) jobs.old }
    ensures run { AllZip (IsRun N.Session (lane_site L.Cell L.Gate)
        (door_site O.Source O.Door.own)) jobs.old jobs.new }
{
    let threads = jobs.len().max(1);
    let run = |_: usize, job: &mut Job<L, O, A, B>|
        requires { IsReady N.Session job.now }
        ensures { IsRun N.Session (lane_site L.Cell L.Gate) (door_site O.Source O.Door.own)
            job.entry.now job.exit.now }
    { job.run(rt, alloc, shared, notices) };
    thread::for_each_mut(rt, jobs, threads, &run);
}

/// Holds a session: its jobs run, and it ends when the last of them has.
pub fn hold<
    L: Lane + Send,
    O: Door + Send,
    D: Disk + Send,
    A: Ledger + Send + Sync,
    B: Ledger + Send + Sync,
    N: Session + Send + Sync,
    M: JobNotices + Sync,
    R: Threads + Wait + Sync,
>(
    rt: &R,
    alloc: Global,
    notices: &M,
    store: Store<D>,
    turn: Turn<Entry, A, B>,
    seat: BookSeat<Entry, A, B>,
    crew: Crew<L, O, A, B>,
) -> (Store<D>, Vec<Work<L, O>>, u64)
    requires sound { IsSound D.Disk store }
    requires begins { Begins D.Disk N.Session store }
    requires turn { IsTurnOf N.Session turn }
    requires seat { IsNewSeat N.Session seat }
    requires ready { All (IsReady N.Session) crew.jobs.items }
    requires rows { vec_len crew.jobs + 1 ≡ A.parts }
    requires faults { vec_len crew.jobs + 1 ≡ B.parts }
    requires empty { (crew.works.items ≡ []) × (crew.ends.items ≡ []) }
    requires room { HasRoomFor (vec_len crew.jobs) crew }
    ensures ended { HasEnded D.Disk N.Session (lane_site L.Cell L.Gate)
        (door_site O.Source O.Door.own) crew.jobs.items result.0 result.1.items result.2 }
{
    let Crew {
        mut jobs,
        works,
        ends,
    } = crew;
    let shared = Shared::<D, A, B, N>::new(store, turn, seat);
    run_all(rt, alloc, &shared, notices, jobs.as_mut_slice());
    let (works, ends) = dismiss(jobs, works, ends);
    let Closed { store, faults } = shared.close(ends);
    (store, works, faults)
}
