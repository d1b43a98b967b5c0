use crate::halls::{CALLS, Given, NONE, ROWS, Seen, work_twice};
use book_words::Prior;
use lane_worker::{LaneEnd, LaneStop};
use memory_hall::CellItem;
use std::alloc::Global;
use std::test::Fail;

const COUNT: u32 = 20;

// Twenty packs, which all pass. The worker stops the lane (row 6), starts it (row 7), weighs them,
// and stops it.
const TWENTY: Given<'static> = Given {
    items: &[CellItem::Gross(260_000); 20],
    ..NONE
};

// Their numbers.
const PACKS: [u32; 20] = [
    8, 9, 10, 11, 12, 13, 14, 15, 16, 17, 18, 19, 20, 21, 22, 23, 24, 25, 26, 27,
];

// The first so many of them.
fn packs(count: u32) -> &'static [u32] {
    PACKS.get(..count as usize).unwrap_or(&[])
}

// Whether a work is seen to end so, with so many openings and rows, and this said of the gate in the
// last of them.
fn ends_so(seen: &Seen, stop: LaneStop, opened: u32, rows: u32, prior: Prior) -> bool {
    seen.end == LaneEnd { opened, stop }
        && seen.opened
        && seen.rows == rows
        && seen.last == Some(prior)
}

// A call of the cell fails, the one that would give its end among them: what came before is weighed.
fn cell_fails_right(alloc: Global, call: u32) -> Option<bool> {
    let fails = [call];
    let weighed = call.saturating_sub(1);
    let prior = if weighed == 0 {
        Prior::Nothing
    } else {
        Prior::Opened
    };
    let given = Given {
        cell_fails: &fails,
        ..TWENTY
    };
    let [seen, _] = work_twice(alloc, &[], &given, packs(weighed))?;
    let rows = weighed.saturating_add(ROWS + 3);
    Some(ends_so(&seen, LaneStop::Cell, weighed, rows, prior))
}

// A call of the gate fails: its pack is weighed, and the stop says that the gate stayed shut.
fn gate_fails_right(alloc: Global, call: u32) -> Option<bool> {
    let fails = [call];
    let opened = call.saturating_sub(1);
    let given = Given {
        gate_fails: &fails,
        ..TWENTY
    };
    let [seen, _] = work_twice(alloc, &[], &given, packs(opened))?;
    let rows = call.saturating_add(ROWS + 3);
    Some(ends_so(&seen, LaneStop::Gate, opened, rows, Prior::Stayed))
}

// What the first row of the next worker says of the gate, where so many rows stand; behind six rows
// the lane has no batch, and the row is a start.
fn said_next(rows: u32) -> Option<Prior> {
    match rows {
        6 => None,
        5 | 7 => Some(Prior::Nothing),
        _ => Some(Prior::Unknown),
    }
}

// A call of the disk fails: the rows before are acknowledged, four calls each, and where the last of
// them is a pack the next worker doesn't know what the gate did.
fn disk_fails_right(alloc: Global, call: u32) -> Option<bool> {
    let rows = (call.saturating_sub(CALLS + 1) / 4).saturating_add(ROWS);
    let opened = rows.saturating_sub(7);
    let [seen, next] = work_twice(alloc, &[call], &TWENTY, packs(opened))?;
    let stop = LaneStop::DiskFault;
    Some(
        seen.end == LaneEnd { opened, stop }
            && seen.opened
            && seen.rows == rows
            && next.end.stop == LaneStop::Done
            && next.first == said_next(rows),
    )
}

// The first call of the cell, or of the gate, that doesn't come out right.
fn first_wrong(alloc: Global) -> Option<u32> {
    for call in 1..COUNT + 1 {
        if cell_fails_right(alloc, call) != Some(true)
            || gate_fails_right(alloc, call) != Some(true)
        {
            return Some(call);
        }
    }
    None
}

// The first call of the disk that doesn't. Twenty-three rows are added.
fn first_wrong_of_disk(alloc: Global) -> Option<u32> {
    for call in CALLS + 1..CALLS + 4 * (COUNT + 3) + 1 {
        if disk_fails_right(alloc, call) != Some(true) {
            return Some(call);
        }
    }
    None
}

#[test]
fn each_call_fails(rt: HostRuntime) -> Result<(), Fail> {
    assert_eq!(rt; first_wrong(rt.alloc()), None);
    assert_eq!(rt; first_wrong_of_disk(rt.alloc()), None);
    assert!(rt; cell_fails_right(rt.alloc(), COUNT + 1) == Some(true));
    Ok(())
}
