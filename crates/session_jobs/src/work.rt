//! What a job does.
ghost use Rattle.std.specs.Prelude.{◌≡◌};
ghost use Rattle.lane_worker.specs.Works.{BreaksAt, site};
ghost use Rattle.lane_changes.specs.Changes.{WentAt, BrokeAt};
ghost use Rattle.session_jobs.specs.Works.{IsWorkedFor};

use crate::notices::JobNotices;
use book_words::{Caller, Name};
use disk_core::Door;
use hall_limits::{MAX_DOOR, MAX_LANE};
use lane_changes::run_changes;
use lane_worker::{Lane, LaneEnd, run_lane};
use office_door::{DoorEnd, serve_door};
use std::alloc::Global;

/// The most jobs of a session: all lanes and all doors.
pub const MAX_JOBS: usize = MAX_LANE as usize + MAX_DOOR as usize;

/// A lane that is worked for the packs of one batch, or of those that its cell gives.
#[derive(Drop)]
pub struct LaneJob<L> {
    pub lane: L,
    /// The number of the lane, from 1; its rows bear it.
    pub number: u8,
    /// Its batch; `None` where it changes.
    pub batch: Option<Name>,
    /// How the work ended; `None` before it began.
    pub end: Option<LaneEnd>,
}

/// A door of the office that is served.
#[derive(Drop)]
pub struct DoorJob<O> {
    pub door: O,
    /// The number of the door, from 1; its rows bear the numbers behind those of all lanes.
    pub number: u8,
    /// How the service ended; `None` before it began.
    pub end: Option<DoorEnd>,
}

/// What a job does.
#[derive(Drop)]
pub enum Work<L, O> {
    Lane(LaneJob<L>),
    Door(DoorJob<O>),
}

impl<L, O> Work<L, O> {
    ghost use Rattle.std.specs.Prelude.{◌≡◌};
    ghost use Rattle.session_jobs.specs.Works.{number_of};

    /// The number of its caller, which its rows bear: that of the lane, or 16 more than that of the
    /// door.
    pub fn number(&self) -> u16
        ensures { result ≡ number_of self.now }
    {
        match self {
            Work::Lane(job) => u16::from(job.number),
            Work::Door(job) => u16::from(MAX_LANE) + u16::from(job.number),
        }
    }
}

// Works a lane for its batch, or for those that its cell gives.
fn work_lane<C: Caller, L: Lane, N: JobNotices>(
    caller: &mut C,
    lane: &mut L,
    number: u8,
    batch: Option<Name>,
    notices: &N,
) -> LaneEnd
    ensures works { IsWorkedFor (C.later caller.old caller.new)
        (BreaksAt C.Caller caller.old caller.new) (WentAt C.Caller) (BrokeAt C.Caller)
        (site C.Caller L.Cell L.Gate caller.old lane.old)
        (site C.Caller L.Cell L.Gate caller.new lane.new) number batch result }
{
    match batch {
        Some(batch) => run_lane(caller, lane, number, batch),
        None => run_changes(caller, lane, number, notices),
    }
}

impl<L: Lane, O: Door> Work<L, O> {
    ghost use Rattle.std.specs.Prelude.{◌≡◌};
    ghost use Rattle.lane_changes.specs.Changes.{WentAt, BrokeAt};
    ghost use Rattle.lane_worker.specs.Works.{BreaksAt};
    ghost use Rattle.session_jobs.specs.Works.{lane_site, door_site, IsDone};

    // Does the work for a caller of the book, and says how it ended.
    pub(crate) fn run<C: Caller, N: JobNotices>(
        &mut self,
        alloc: Global,
        caller: &mut C,
        notices: &N,
    )
        ensures done { IsDone (C.later caller.old caller.new)
            (BreaksAt C.Caller caller.old caller.new) (WentAt C.Caller) (BrokeAt C.Caller)
            (lane_site L.Cell L.Gate) (door_site O.Source O.Door.own)
            (C.known caller.old) (C.known caller.new) self.old self.new }
    {
        match self {
            Work::Lane(job) => {
                let end = work_lane(caller, &mut job.lane, job.number, job.batch, notices);
                notices.lane_ended(job.number, job.batch, end);
                job.end = Some(end);
            }
            Work::Door(job) => {
                let end = serve_door(alloc, caller, &mut job.door);
                notices.door_ended(job.number, end);
                job.end = Some(end);
            }
        }
    }
}
