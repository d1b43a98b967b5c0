use crate::acts::{REQUESTS, SETUP_ROWS, entry_of};
use crate::callers::{Callers, MeetingEnd, serve};
use crate::devices::Meeting;
use crate::texts::push_response;
use book_words::Entry;
use hall_limits::MAX_LANE;
use pack_judge::Signal;
use std::alloc::Global;
use std::sync::Wait;
use std::test::Fail;
use std::thread::Threads;

const PLAN: &str = "\
setup = \"\"\"
day 2025-03-03
product rice250 250
tare rice250 2025-03-03 10
open A rice250
open B rice250
open C rice250
open D rice250
open E rice250
open F rice250
open G rice250
open H rice250
open I rice250
open J rice250
open K rice250
open L rice250
open M rice250
open N rice250
open O rice250
open P rice250
\"\"\"
reserve = 40_000
lane = [
  {number = 1, batch = \"A\"},
  {number = 2, batch = \"B\"},
  {number = 3, batch = \"C\"},
  {number = 4, batch = \"D\"},
  {number = 5, batch = \"E\"},
  {number = 6, batch = \"F\"},
  {number = 7, batch = \"G\"},
  {number = 8, batch = \"H\"},
  {number = 9, batch = \"I\"},
  {number = 10, batch = \"J\"},
  {number = 11, batch = \"K\"},
  {number = 12, batch = \"L\"},
  {number = 13, batch = \"M\"},
  {number = 14, batch = \"N\"},
  {number = 15, batch = \"O\"},
  {number = 16, batch = \"P\"},
]
";

const ALL: Callers = Callers {
    plan: PLAN,
    lanes: 16,
    desks: &[
        101, 102, 103, 104, 105, 106, 107, 108, 109, 110, 111, 112, 113, 114, 115, 116,
    ],
    requests: REQUESTS,
};

// The setup, 1 002 acts of each lane and 1 000 of each door.
const ALL_ROWS: usize = 32_051;

// Whether the entry of a row, from 0, is the next of its caller, behind so many others of its own.
// The setup is by nobody, and stands first.
fn is_next(entry: &Entry, row: usize, place: u32) -> bool {
    if entry.by == 0 {
        row < SETUP_ROWS
    } else {
        Some(*entry) == entry_of(entry.by, place)
    }
}

// The first row that isn't the next of its caller.
fn wrong_row(rows: &[Entry]) -> Option<usize> {
    let mut counts = [0u32; 33];
    for (row, entry) in rows.iter().enumerate() {
        let Some(count) = counts.get_mut(usize::from(entry.by)) else {
            return Some(row);
        };
        if !is_next(entry, row, *count) {
            return Some(row);
        }
        *count = count.saturating_add(1);
    }
    None
}

// Whether a gate opened for the packs of its lane that passed, and no others.
fn is_gate_right(rows: &[Entry], lane: u16, opened: &[u32]) -> bool {
    let mut count: usize = 0;
    let mut row: u32 = 0;
    for entry in rows {
        row = row.saturating_add(1);
        if entry.by == lane && entry.signal == Some(Signal::Pass) {
            if opened.get(count) != Some(&row) {
                return false;
            }
            count = count.saturating_add(1);
        }
    }
    count == opened.len()
}

// The responses to the acts of a door, by the rows where they stand.
fn responses_to(alloc: Global, rows: &[Entry], door: u16) -> Vec<u8> {
    let (mut text, mut body) = (Vec::new(alloc), Vec::new(alloc));
    let mut row: u64 = 0;
    for entry in rows {
        row = row.saturating_add(1);
        if entry.by == door {
            push_response(&mut text, &mut body, row, entry.request == REQUESTS);
        }
    }
    text
}

// The first door that wasn't told where its acts stand.
fn wrong_door(alloc: Global, ended: &MeetingEnd<'_>) -> Option<u16> {
    let mut number = u16::from(MAX_LANE);
    for door in &ended.doors {
        number = number.saturating_add(1);
        let told = responses_to(alloc, ended.rows.as_slice(), number);
        if told.as_slice() != door.written.as_slice() {
            return Some(number);
        }
    }
    None
}

// The first lane whose gate opened otherwise.
fn wrong_lane(ended: &MeetingEnd<'_>) -> Option<u16> {
    let mut number: u16 = 0;
    for lane in &ended.lanes {
        number = number.saturating_add(1);
        if !is_gate_right(ended.rows.as_slice(), number, lane.gate.opened()) {
            return Some(number);
        }
    }
    None
}

// What is found of a hall: its status, how many rows it left, and the first row, gate and door that
// aren't as each caller's own record says.
type Found = (u8, usize, Option<usize>, Option<u16>, Option<u16>);

const RIGHT: Found = (0, ALL_ROWS, None, None, None);

fn found_of(alloc: Global, ended: &MeetingEnd<'_>) -> Found {
    let rows = ended.rows.as_slice();
    (
        ended.status,
        rows.len(),
        wrong_row(rows),
        wrong_lane(ended),
        wrong_door(alloc, ended),
    )
}

// What is found of a hall of all these callers; nothing where there is no memory for it.
fn hall_found<R: Threads + Wait + Sync>(rt: &R, alloc: Global) -> Option<Found> {
    let meeting = Meeting::new(32);
    let ended = serve(rt, alloc, &meeting, &ALL)?;
    Some(found_of(alloc, &ended))
}

#[test]
fn sixteen_lanes_and_sixteen_doors(rt: HostRuntime) -> Result<(), Fail> {
    assert_eq!(rt; hall_found(&rt, rt.alloc()), Some(RIGHT));
    Ok(())
}
