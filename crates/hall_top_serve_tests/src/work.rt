use crate::halls::{CALM, Case, MemoryEnd, ONE_LANE, SUMMARY, ends_so, output_of, play};
use memory_hall::CellItem::Gross;
use std::alloc::Global;
use std::sync::Wait;
use std::test::Fail;
use std::thread::Threads;

// One lane and one door.
const BOTH: &Case = &Case {
    plan: ONE_LANE,
    cells: &[&[Gross(251_000), Gross(250_999)]],
    doors: &[&[SUMMARY]],
    printed: "\
lane 1 opened 2 done
door 1 served 1 links 0 done
rows 8
readings 2 gross 501.999
passed 2 gross 501.999
rejected 0 gross 0.000
sampled 0 gross 0.000
voided 0 gross 0.000
batches running 1 ended 0 drawn 0 closed 0
",
    rows: 8,
    ..CALM
};

// The responses that the door may have written, by the row that they name.
const RESPONSES: [&str; 5] = [
    "HTTP/1.1 200 OK\r\nContent-Type: text/plain\r\nContent-Length: 160\r\nBook-Row: 4\r\n\r\n\
rows 4\nreadings 0 gross 0.000\npassed 0 gross 0.000\nrejected 0 gross 0.000\n\
sampled 0 gross 0.000\nvoided 0 gross 0.000\nbatches running 1 ended 0 drawn 0 closed 0\n",
    "HTTP/1.1 200 OK\r\nContent-Type: text/plain\r\nContent-Length: 160\r\nBook-Row: 5\r\n\r\n\
rows 5\nreadings 0 gross 0.000\npassed 0 gross 0.000\nrejected 0 gross 0.000\n\
sampled 0 gross 0.000\nvoided 0 gross 0.000\nbatches running 1 ended 0 drawn 0 closed 0\n",
    "HTTP/1.1 200 OK\r\nContent-Type: text/plain\r\nContent-Length: 164\r\nBook-Row: 6\r\n\r\n\
rows 6\nreadings 1 gross 251.000\npassed 1 gross 251.000\nrejected 0 gross 0.000\n\
sampled 0 gross 0.000\nvoided 0 gross 0.000\nbatches running 1 ended 0 drawn 0 closed 0\n",
    "HTTP/1.1 200 OK\r\nContent-Type: text/plain\r\nContent-Length: 164\r\nBook-Row: 7\r\n\r\n\
rows 7\nreadings 2 gross 501.999\npassed 2 gross 501.999\nrejected 0 gross 0.000\n\
sampled 0 gross 0.000\nvoided 0 gross 0.000\nbatches running 1 ended 0 drawn 0 closed 0\n",
    "HTTP/1.1 200 OK\r\nContent-Type: text/plain\r\nContent-Length: 164\r\nBook-Row: 8\r\n\r\n\
rows 8\nreadings 2 gross 501.999\npassed 2 gross 501.999\nrejected 0 gross 0.000\n\
sampled 0 gross 0.000\nvoided 0 gross 0.000\nbatches running 1 ended 0 drawn 0 closed 0\n",
];

// The rows for which the gate of the first lane opened.
fn opened(ended: &MemoryEnd) -> &[u32] {
    match ended.lanes.first() {
        Some(lane) => lane.gate.opened(),
        None => &[],
    }
}

// Whether the first door wrote one of the responses, which names a row that was there as it asked.
fn is_answered(ended: &MemoryEnd) -> bool {
    match ended.doors.first() {
        Some(door) => is_response(door.written(0).unwrap_or(b"")),
        None => false,
    }
}

fn is_response(written: &[u8]) -> bool {
    RESPONSES.iter().any(|text| text.as_bytes() == written)
}

// Whether a lane and a door came out so.
fn is_right(ended: &MemoryEnd, printed: &[u8], case: &Case) -> bool {
    ends_so(ended, printed, case) && opened(ended) == [6, 7].as_slice() && is_answered(ended)
}

fn serves<R: Threads + Wait + Sync>(rt: &R, alloc: Global, case: &Case) -> bool {
    let mut output = output_of(alloc, case);
    let ended = play(rt, alloc, "serve", case, &mut output);
    is_right(&ended, output.bytes(), case)
}

#[test]
fn a_lane_and_a_door(rt: HostRuntime) -> Result<(), Fail> {
    assert!(rt; serves(&rt, rt.alloc(), BOTH));
    Ok(())
}

// Another command is done as by itself, and leaves the doors alone.
const CHECK: &Case = &Case {
    doors: &[&[SUMMARY]],
    printed: "rows 0 whole\n",
    ..CALM
};

// Whether another command came out so.
fn is_checked(ended: &MemoryEnd, printed: &[u8], case: &Case) -> bool {
    ends_so(ended, printed, case) && ended.door_ends.as_slice().is_empty()
}

fn checks<R: Threads + Wait + Sync>(rt: &R, alloc: Global, case: &Case) -> bool {
    let mut output = output_of(alloc, case);
    let ended = play(rt, alloc, "check", case, &mut output);
    is_checked(&ended, output.bytes(), case)
}

#[test]
fn another_command(rt: HostRuntime) -> Result<(), Fail> {
    assert!(rt; checks(&rt, rt.alloc(), CHECK));
    Ok(())
}
