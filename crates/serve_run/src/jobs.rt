//! The jobs of a plan, and what is handed back of them.
ghost use Rattle.std.specs.Prelude.{◌≡◌, ◌+◌, ◌≤◌, ◌++◌, ◌∷◌, [], IfOk, option_to_list, length, vec_len, vec_capacity};
ghost use Rattle.hall_limits.specs.declared.TheConstants.{MAX_DOOR};
ghost use Rattle.serve_run.specs.Jobs.{lane_jobs, door_jobs, handed_back};
ghost use Rattle.serve_run.specs.Rooms.{IsEmpty, HasRoomFor, TakesRoom, lists_of};

use hall_plan::PlannedLane;
use lane_worker::LaneEnd;
use office_door::DoorEnd;
use session_jobs::{DoorJob, LaneJob, Work};
use std::alloc::{AllocError, Global};

/// The lanes and the doors that jobs hand back, and how they ended.
#[derive(Drop)]
pub struct HandedBack<L, O> {
    pub lanes: Vec<L>,
    pub lane_ends: Vec<LaneEnd>,
    pub doors: Vec<O>,
    pub door_ends: Vec<DoorEnd>,
}

/// Room for what so many jobs hand back.
pub fn take_room<L: Drop, O: Drop>(
    alloc: Global,
    count: usize,
) -> Result<HandedBack<L, O>, AllocError>
    ensures empty { IfOk result IsEmpty }
    ensures room { IfOk result (HasRoomFor count) }
{
    Ok(HandedBack {
        lanes: Vec::with_capacity(alloc, count)?,
        lane_ends: Vec::with_capacity(alloc, count)?,
        doors: Vec::with_capacity(alloc, count)?,
        door_ends: Vec::with_capacity(alloc, count)?,
    })
}

/// Appends a job for each lane, with the batch that is planned for it.
pub fn push_lanes<L, O>(jobs: &mut Vec<Work<L, O>>, lanes: Vec<L>, planned: &[PlannedLane])
    requires as_many { length planned.now ≡ vec_len lanes }
    requires room { vec_len jobs.old + vec_len lanes ≤ vec_capacity jobs.old }
    ensures jobs { jobs.new.items ≡ jobs.old.items ++ lane_jobs planned.now lanes.items }
    ensures count { vec_len jobs.new ≡ vec_len jobs.old + vec_len lanes }
    ensures capacity { vec_capacity jobs.new ≡ vec_capacity jobs.old }
{
    let mut rest = lanes.into_iter();
    for plan in planned {
        if let Some(lane) = rest.next() {
            jobs.push_reserved(Work::Lane(LaneJob {
                lane,
                number: plan.number,
                batch: plan.batch,
                end: None,
            }));
        }
    }
    rest.destroy_empty();
}

/// Appends a job for each door, numbered from 1.
pub fn push_doors<L, O>(jobs: &mut Vec<Work<L, O>>, doors: Vec<O>)
    requires few { vec_len doors ≤ MAX_DOOR }
    requires room { vec_len jobs.old + vec_len doors ≤ vec_capacity jobs.old }
    ensures jobs { jobs.new.items ≡ jobs.old.items ++ door_jobs 1 doors.items }
{
    let mut rest = doors.into_iter();
    let mut number = 1;
    while let Some(door) = rest.next() {
        jobs.push_reserved(Work::Door(DoorJob {
            door,
            number,
            end: None,
        }));
        number += 1;
    }
    rest.destroy_empty();
}

/// Hands back what jobs are done with.
pub fn hand_back<L, O>(jobs: Vec<Work<L, O>>, room: HandedBack<L, O>) -> HandedBack<L, O>
    requires empty { IsEmpty room }
    requires room { HasRoomFor (vec_len jobs) room }
    ensures back { lists_of result ≡ handed_back jobs.items }
{
    let mut handed = room;
    let mut rest = jobs.into_iter();
    while let Some(work) = rest.next() {
        match work {
            Work::Lane(job) => hand_lane(job, &mut handed),
            Work::Door(job) => hand_door(job, &mut handed),
        }
    }
    rest.destroy_empty();
    handed
}

// Hands back a lane, and how it ended.
fn hand_lane<L, O>(job: LaneJob<L>, handed: &mut HandedBack<L, O>)
    requires room { HasRoomFor 1 handed.old }
    ensures lane { handed.new.lanes.items ≡ handed.old.lanes.items ++ job.lane ∷ [] }
    ensures end { handed.new.lane_ends.items
        ≡ handed.old.lane_ends.items ++ option_to_list job.end }
    ensures rest { (handed.new.doors ≡ handed.old.doors)
        × (handed.new.door_ends ≡ handed.old.door_ends) }
    ensures room { TakesRoom handed.old handed.new }
{
    let LaneJob { lane, end, .. } = job;
    handed.lanes.push_reserved(lane);
    if let Some(end) = end {
        handed.lane_ends.push_reserved(end);
    }
}

// Hands back a door, and how it ended.
fn hand_door<L, O>(job: DoorJob<O>, handed: &mut HandedBack<L, O>)
    requires room { HasRoomFor 1 handed.old }
    ensures door { handed.new.doors.items ≡ handed.old.doors.items ++ job.door ∷ [] }
    ensures end { handed.new.door_ends.items
        ≡ handed.old.door_ends.items ++ option_to_list job.end }
    ensures rest { (handed.new.lanes ≡ handed.old.lanes)
        × (handed.new.lane_ends ≡ handed.old.lane_ends) }
    ensures room { TakesRoom handed.old handed.new }
{
    let DoorJob { door, end, .. } = job;
    handed.doors.push_reserved(door);
    if let Some(end) = end {
        handed.door_ends.push_reserved(end);
    }
}
