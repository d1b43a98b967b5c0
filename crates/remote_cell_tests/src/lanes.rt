use crate::cells::cell_of;
use book_words::Name;
use lane_worker::{LaneEnd, LaneStop, ListGate, PairLane, run_lane};
use memory_hall::open_book;
use remote_cell::MAX_TURNS;
use std::alloc::{AllocError, Global};
use std::test::Fail;

// The bad line at which a lane ends over a cell to which these connections come, if it isn't done,
// how often its gate opens, and how many rows the book then has.
struct Case {
    connections: &'static [&'static [u8]],
    bad: Option<u32>,
    opened: u32,
    rows: u32,
}

// Behind four opening rows a start, a row for each weight, and a stop; one weight is too light.
const CASES: &[Case] = &[
    Case {
        connections: &[b"1 260\n2 26", b"1 260\n2 100\n4 260\n3 end\n"],
        bad: None,
        opened: 1,
        rows: 8,
    },
    Case {
        connections: &[b"1 260\n2 x\n"],
        bad: Some(2),
        opened: 1,
        rows: 7,
    },
    Case {
        connections: &[b"1 260\n"],
        bad: Some(2),
        opened: 1,
        rows: 7,
    },
];

// Whether a case comes out right.
fn comes_out(alloc: Global, case: &Case) -> Option<bool> {
    let batch = Name::new(b"A".as_slice())?;
    let cell = cell_of(alloc, case.connections, &[]);
    let mut lane = PairLane::new(cell, ListGate::new(alloc, Vec::new(alloc)));
    let mut hall = open_book(alloc, &[], 4, 1)?;
    let end = run_lane(&mut hall, &mut lane, 1, batch);
    let store = hall.back();
    let rows = store.len();
    let _ = store.close();
    let stop = match case.bad {
        None => LaneStop::Done,
        Some(line) => LaneStop::Bad { line },
    };
    let opened = case.opened;
    Some(end == LaneEnd { opened, stop } && rows == case.rows)
}

// The place of the first case that doesn't.
fn first_wrong(alloc: Global) -> Option<usize> {
    for (place, case) in CASES.iter().enumerate() {
        if comes_out(alloc, case) != Some(true) {
            return Some(place);
        }
    }
    None
}

// As many lines as a call looks at, less its connection, and one weight behind them.
fn long_session(alloc: Global) -> Result<Vec<u8>, AllocError> {
    let mut bytes = Vec::new(alloc);
    for _line in 1..MAX_TURNS {
        bytes.extend_from_slice(b"9 1\n")?;
    }
    bytes.extend_from_slice(b"1 260\n")?;
    Ok(bytes)
}

// How a lane ends whose scale is ahead for longer than a call looks at.
fn stop_of_long(alloc: Global) -> Option<LaneStop> {
    let batch = Name::new(b"A".as_slice())?;
    let session = long_session(alloc).ok()?;
    let cell = cell_of(alloc, &[session.as_slice()], &[]);
    let mut lane = PairLane::new(cell, ListGate::new(alloc, Vec::new(alloc)));
    let mut hall = open_book(alloc, &[], 4, 1)?;
    let end = run_lane(&mut hall, &mut lane, 1, batch);
    let _ = hall.back().close();
    Some(end.stop)
}

#[test]
fn lanes_end_right(rt: HostRuntime) -> Result<(), Fail> {
    assert_eq!(rt; first_wrong(rt.alloc()), None);
    assert!(rt; stop_of_long(rt.alloc()) == Some(LaneStop::Turns));
    Ok(())
}
