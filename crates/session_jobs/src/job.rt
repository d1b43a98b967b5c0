//! A job of a session: a work, and the seat of its caller.
ghost use Rattle.std.specs.Prelude.{◌≡◌};

use crate::notices::JobNotices;
use crate::work::Work;
use disk_core::{Disk, Door};
use lane_worker::Lane;
use shared_book::{PassEnd, Session, Shared};
use std::alloc::Global;
use std::sync::Wait;
use std::sync::ledger::Ledger;

/// A work with the seat of its caller, which is away only while it runs.
#[derive(Drop)]
pub struct Job<L, O, A: Ledger, B: Ledger> {
    pub work: Work<L, O>,
    pub seat: Option<PassEnd<A, B>>,
}

impl<L: Lane, O: Door, A: Ledger, B: Ledger> Job<L, O, A, B> {
    ghost use Rattle.session_jobs.specs.Works.{lane_site, door_site};
    ghost use Rattle.session_jobs.specs.Jobs.{IsReady, IsRun};

    /// Runs the job as a caller of the shared book.
    pub fn run<D: Disk, N: Session, M: JobNotices, R: Wait>(
        &mut self,
        rt: &R,
        alloc: Global,
        shared: &Shared<D, A, B, N>,
        notices: &M,
    )
        requires ready { IsReady N.Session self.old }
        ensures run { IsRun N.Session (lane_site L.Cell L.Gate) (door_site O.Source O.Door.own)
            self.old self.new }
    {
        if let Some(seat) = self.seat.take() {
            let mut pass = shared.pass(rt, seat);
            self.work.run(alloc, &mut pass, notices);
            self.seat = Some(pass.end());
        }
    }
}
