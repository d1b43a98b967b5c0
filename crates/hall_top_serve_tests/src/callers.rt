//! A hall whose lanes and doors meet before they ask.
use crate::devices::{Meeting, MeetingCell, MeetingDoor};
use crate::texts::push_request;
use disk_core::{MemorySink, QuietDisk, QuietSource};
use hall_limits::{MAX_DOOR, MAX_LANE};
use hall_top::{Ended, NoNotices, hall};
use lane_worker::{ListGate, PairLane};
use memory_hall::{copy, words_of};
use std::alloc::Global;
use std::sync::Wait;
use std::thread::Threads;

/// A lane of such a hall.
pub type MeetingLane<'a> = PairLane<MeetingCell<'a>, ListGate>;

/// What such a hall leaves.
pub type MeetingEnd<'a> = Ended<QuietDisk, MeetingLane<'a>, MeetingDoor<'a>>;

// Room for a journal of more rows than any of these halls leaves, and its snapshot.
const ROOM: usize = 16_000_000;

/// What a hall is of.
#[derive(Clone, Copy)]
pub struct Callers {
    pub plan: &'static str,
    /// How many lanes there are.
    pub lanes: u8,
    /// The desk that sends its requests through each door.
    pub desks: &'static [u16],
    /// How many requests come through each.
    pub requests: u32,
}

// Lanes that meet.
fn lanes_at<'a>(alloc: Global, meeting: &'a Meeting, count: u8) -> Vec<MeetingLane<'a>> {
    let mut lanes = Vec::new(alloc);
    for place in 0..count {
        let cell = MeetingCell {
            meeting,
            lane: place.saturating_add(1),
            given: 0,
            faults: 0,
        };
        let _ = lanes.push(PairLane::new(cell, ListGate::new(alloc, Vec::new(alloc))));
    }
    lanes
}

// The requests of a desk.
fn requests_of(alloc: Global, desk: u16, count: u32) -> Vec<u8> {
    let (mut sent, mut body) = (Vec::new(alloc), Vec::new(alloc));
    for place in 0..count {
        push_request(&mut sent, &mut body, desk, place.saturating_add(1));
    }
    sent
}

// Doors that meet, one for each of these desks.
fn doors_at<'a>(alloc: Global, meeting: &'a Meeting, callers: &Callers) -> Vec<MeetingDoor<'a>> {
    let mut doors = Vec::new(alloc);
    for desk in callers.desks {
        let _ = doors.push(MeetingDoor {
            meeting,
            sent: requests_of(alloc, *desk, callers.requests),
            read: 0,
            written: Vec::new(alloc),
            waits: true,
            ended: false,
            faults: 0,
        });
    }
    doors
}

/// Serves a hall whose callers all meet.
pub fn serve<'a, R: Threads + Wait + Sync>(
    rt: &R,
    alloc: Global,
    meeting: &'a Meeting,
    callers: &Callers,
) -> Option<MeetingEnd<'a>> {
    let room = Vec::with_capacity(alloc, ROOM).ok()?;
    let words = words_of(alloc, &["serve"]);
    let mut input = QuietSource::new(copy(alloc, callers.plan.as_bytes()));
    let mut output = MemorySink::new(alloc, Vec::new(alloc));
    let mut lanes = lanes_at(alloc, meeting, callers.lanes);
    lanes.truncate(usize::from(MAX_LANE));
    let mut doors = doors_at(alloc, meeting, callers);
    doors.truncate(usize::from(MAX_DOOR));
    Some(hall(
        rt,
        alloc,
        &words,
        &mut input,
        &mut output,
        &mut NoNotices,
        QuietDisk::new(room),
        lanes,
        doors,
    ))
}
