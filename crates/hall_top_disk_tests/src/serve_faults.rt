use crate::halls::{
    Asked, KEEPS, MOUNT_CALLS, MemoryEnd, SETUP_ROWS, ask, calls_of, crashed, serve, set_up,
};
use crate::offered::{ALL_ROWS, Offered, number_of};
use crate::replies::faults_told;
use book_words::Entry;
use disk_core::{Keep, MemoryDisk};
use lane_worker::LaneStop;
use memory_hall::disk_of;
use std::alloc::Global;
use std::sync::Wait;
use std::test::Fail;
use std::thread::Threads;

// How many calls of the disk are made before the lane and the door are at work: mounting the five
// rows by their snapshot takes eight, and the row of the setup six, since the snapshot is then no
// longer the disk's.
const EARLY: u32 = MOUNT_CALLS + 6;

// How many are made in all, where none fails: each of the four rows of the lane and the three of
// the desk takes four, and keeping the snapshot seven.
const CALLS: u32 = EARLY + 4 * 7 + 7;

// A desk that asks its acts again.
const AGAIN: &[u8] = b"@101 1 product b 250\n@101 2 product c 250\n@101 3 product d 250\n";

// A disk with the rows of the setup, and what is then offered.
#[derive(Drop)]
struct Table {
    bytes: Vec<u8>,
    offered: Offered,
}

// What a hall left in a book: these rows, and at most so many more, each of what was offered.
#[derive(Drop)]
struct Kept<'a> {
    offered: &'a Offered,
    rows: &'a [Entry],
    more: usize,
}

// Whether a desk asks its acts again over that book: the rows are there, and each act of the desk
// then has one row.
fn stands(kept: &Kept, again: &Asked) -> bool {
    let held = again.held as usize;
    let least = kept.rows.len();
    let all = again.rows.as_slice();
    let (found, added) = all.split_at(all.len().min(held));
    again.status == 0
        && least <= held
        && held <= least.saturating_add(kept.more)
        && found.starts_with(kept.rows)
        && kept.offered.allows(found)
        && kept.offered.are_missing(added, found)
}

// Whether a disk has the book.
fn is_kept(alloc: Global, kept: &Kept, bytes: &[u8]) -> bool {
    let asked = ask(alloc, "run", AGAIN, disk_of(alloc, bytes, &[]));
    stands(kept, &asked)
}

// Whether what a crash leaves of the disk of a hall has it.
fn is_left_by(alloc: Global, kept: &Kept, disk: &MemoryDisk, keep: Keep) -> bool {
    match crashed(disk, keep) {
        Some(bytes) => is_kept(alloc, kept, &bytes),
        None => false,
    }
}

// The same, in each way of a crash.
fn is_left(alloc: Global, kept: &Kept, disk: &MemoryDisk) -> bool {
    for keep in KEEPS {
        if !is_left_by(alloc, kept, disk, keep) {
            return false;
        }
    }
    true
}

// How many of these calls were made.
fn count_made(fails: &[u32], calls: u32) -> usize {
    let mut made = 0usize;
    for call in fails {
        if *call <= calls {
            made = made.saturating_add(1);
        }
    }
    made
}

// The packs for which the gate of the lane opened.
fn packs_opened(ended: &MemoryEnd) -> Option<&[u32]> {
    match ended.lanes.first() {
        Some(lane) => Some(lane.gate.opened()),
        None => None,
    }
}

// Whether the gate opened for the pack that has this row.
fn opens_for(ended: &MemoryEnd, row: Option<usize>) -> bool {
    match (packs_opened(ended), row) {
        (Some([]), None) => true,
        (Some([pack]), Some(row)) => *pack as usize == row,
        _ => false,
    }
}

// What the desk was told; nothing where there is no such text.
fn written(ended: &MemoryEnd) -> &str {
    match ended.doors.first() {
        Some(door) => str::from_utf8(door.written(0).unwrap_or(&[])).unwrap_or(""),
        None => "",
    }
}

// How often the desk was told that the disk failed, where it was told its rows and nothing else.
fn desk_faults(offered: &Offered, rows: &[Entry], ended: &MemoryEnd) -> Option<usize> {
    let [first, second, third] = &offered.desk;
    let numbers = [
        number_of(rows, first),
        number_of(rows, second),
        number_of(rows, third),
    ];
    faults_told(written(ended), &numbers)
}

// How often the lane was told that the disk failed, where it was told its rows and nothing else.
fn lane_faults(ended: &MemoryEnd) -> Option<usize> {
    match ended.lane_ends.as_slice().first() {
        Some(end) => match end.stop {
            LaneStop::Done => Some(0),
            LaneStop::DiskFault => Some(1),
            _ => None,
        },
        None => None,
    }
}

// How often either was told so, where the gate opened for the pack that has a row.
fn faults_seen(offered: &Offered, rows: &[Entry], ended: &MemoryEnd) -> Option<usize> {
    let weighed = number_of(rows, &offered.lane[2]);
    match (
        desk_faults(offered, rows, ended),
        lane_faults(ended),
        opens_for(ended, weighed),
    ) {
        (Some(desk), Some(lane), true) => desk.checked_add(lane),
        _ => None,
    }
}

// Whether a hall over a disk of which so many calls failed ended as it has to.
fn ends_right(offered: &Offered, rows: &[Entry], ended: &MemoryEnd, made: usize) -> bool {
    let seen = faults_seen(offered, rows, ended);
    let wanted = if made == 0 { 0 } else { 6 };
    let right = if ended.lane_ends.as_slice().is_empty() {
        made == 1 && rows.len() == SETUP_ROWS
    } else {
        seen == Some(made) || (seen == Some(0) && made == 1 && rows.len() == ALL_ROWS)
    };
    right && ended.status == wanted && offered.allows(rows)
}

// The rows of the book of a hall; those of the setup where its disk wasn't opened as one.
fn rows_of<'a>(offered: &'a Offered, ended: &'a MemoryEnd) -> &'a [Entry] {
    if ended.held == 0 {
        &offered.front[..SETUP_ROWS]
    } else {
        ended.rows.as_slice()
    }
}

// Whether a hall over a disk of which these calls fail, and what is left of it, came out as it has
// to.
fn failed_so(alloc: Global, offered: &Offered, ended: &MemoryEnd, fails: &[u32]) -> bool {
    let rows = rows_of(offered, ended);
    let calls = calls_of(&ended.disk);
    let made = count_made(fails, calls);
    let more = made.min(1);
    let kept = Kept {
        offered,
        rows,
        more,
    };
    ends_right(offered, rows, ended, made)
        && (made > 0 || calls == CALLS)
        && is_left(alloc, &kept, &ended.disk)
}

// A hall over a disk of which these calls fail. Tells whether its lane and its door were at work;
// none where it, or what is left of it, came out otherwise than it has to.
fn serve_failing<R: Threads + Wait + Sync>(
    rt: &R,
    alloc: Global,
    table: &Table,
    fails: &[u32],
) -> Option<bool> {
    let ended = serve(rt, alloc, disk_of(alloc, &table.bytes, fails));
    let right = failed_so(alloc, &table.offered, &ended, fails);
    right.then_some(!ended.lane_ends.as_slice().is_empty())
}

// The first later call that comes out otherwise than it has to, where it fails behind this one.
fn wrong_second<R: Threads + Wait + Sync>(
    rt: &R,
    alloc: Global,
    table: &Table,
    first: u32,
) -> Option<u32> {
    for second in first.saturating_add(1)..CALLS + 3 {
        if serve_failing(rt, alloc, table, &[first, second]).is_none() {
            return Some(second);
        }
    }
    None
}

// The first call that comes out otherwise, where it fails alone, or where it and a later one do.
fn wrong_call<R: Threads + Wait + Sync>(rt: &R, alloc: Global, table: &Table) -> Option<u32> {
    for first in 1..CALLS + 1 {
        let works = first > EARLY;
        if serve_failing(rt, alloc, table, &[first]) != Some(works) {
            return Some(first);
        }
        if works && wrong_second(rt, alloc, table, first).is_some() {
            return Some(first);
        }
    }
    None
}

// The same, behind a hall of which no call fails; 0 where that one comes out otherwise.
fn wrong_over<R: Threads + Wait + Sync>(rt: &R, alloc: Global, table: &Table) -> Option<u32> {
    if serve_failing(rt, alloc, table, &[]) == Some(true) {
        wrong_call(rt, alloc, table)
    } else {
        Some(0)
    }
}

// The same over the disk of the setup; 0 also where there is nothing to offer.
fn first_wrong<R: Threads + Wait + Sync>(rt: &R, alloc: Global) -> Option<u32> {
    match Offered::new() {
        Some(offered) => wrong_over(
            rt,
            alloc,
            &Table {
                bytes: set_up(alloc),
                offered,
            },
        ),
        None => Some(0),
    }
}

#[test]
fn each_call_fails_and_each_two(rt: HostRuntime) -> Result<(), Fail> {
    assert_eq!(rt; first_wrong(&rt, rt.alloc()), None);
    Ok(())
}
