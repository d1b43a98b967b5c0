use crate::acts::desk_act;
use crate::callers::{Callers, MeetingEnd, serve};
use crate::devices::Meeting;
use book_words::Entry;
use hall_limits::MAX_LANE;
use std::alloc::Global;
use std::sync::Wait;
use std::test::Fail;
use std::thread::Threads;

// One row, and then the first request of desk 101, through two doors.
const TWO: Callers = Callers {
    plan: "setup = \"day 2025-03-03\\n\"\n",
    lanes: 0,
    desks: &[101, 101],
    requests: 1,
};

// The same request through sixteen doors.
const SIXTEEN: Callers = Callers {
    desks: &[101; 16],
    ..TWO
};

// The response that tells the row of the act.
const RESPONSE: &[u8] = b"HTTP/1.1 200 OK\r\nContent-Type: application/json\r\n\
Content-Length: 9\r\nBook-Row: 2\r\n\r\n{\"row\":2}";

// How often each hall is served: which door comes first is another thread's doing.
const TIMES: u32 = 20;

// Whether an entry is that of the request, brought by a door.
fn is_act(entry: &Entry) -> bool {
    entry.by > u16::from(MAX_LANE)
        && (entry.desk, entry.request) == (101, 1)
        && Some(entry.act) == desk_act(101, 1)
        && entry.signal.is_none()
}

// Whether the request stands once among the rows, and each door was told its row.
fn acted_once(ended: &MeetingEnd<'_>) -> bool {
    let [_, entry] = ended.rows.as_slice() else {
        return false;
    };
    ended.status == 0
        && is_act(entry)
        && ended
            .doors
            .iter()
            .all(|door| door.written.as_slice() == RESPONSE)
}

// Whether a hall acts once.
fn is_right<R: Threads + Wait + Sync>(rt: &R, alloc: Global, callers: &Callers) -> bool {
    let meeting = Meeting::new(callers.desks.len() as u64);
    match serve(rt, alloc, &meeting, callers) {
        Some(ended) => acted_once(&ended),
        None => false,
    }
}

// How often a hall acts once, of as often as it is served.
fn count_right<R: Threads + Wait + Sync>(rt: &R, alloc: Global, callers: &Callers) -> u32 {
    let mut right: u32 = 0;
    for _time in 0..TIMES {
        right = right.saturating_add(u32::from(is_right(rt, alloc, callers)));
    }
    right
}

// How often each hall acts once.
fn counts<R: Threads + Wait + Sync>(rt: &R, alloc: Global) -> (u32, u32) {
    (
        count_right(rt, alloc, &TWO),
        count_right(rt, alloc, &SIXTEEN),
    )
}

#[test]
fn the_same_request_through_doors_at_once(rt: HostRuntime) -> Result<(), Fail> {
    assert_eq!(rt; counts(&rt, rt.alloc()), (TIMES, TIMES));
    Ok(())
}
