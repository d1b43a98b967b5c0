use crate::halls::{Before, CALLS, Given, Row, Stopped, Wanted, comes_out};
use Row::{Start, Stop, Weigh};
use book_words::Prior::{Nothing, Opened, Stayed};
use memory_hall::CellItem;
use memory_hall::CellItem::{Batch, End, Gross};
use std::alloc::Global;
use std::test::Fail;

// Two batches, with three packs, of which the second is rejected.
const GIVEN: Given<'static> = Given {
    before: Before::Batches,
    items: ITEMS,
    cell_fails: &[],
    gate_fails: &[],
    disk_fails: &[],
};

const ITEMS: &[CellItem] = &[
    Batch(b"A", 1),
    Gross(260_000),
    Gross(240_000),
    Batch(b"B", 4),
    Gross(261_000),
    End,
];

// The rows of the lane where nothing fails; the first has the number 10.
const ROWS: [Row; 7] = [
    Start(b"A"),
    Weigh(260_000, Nothing),
    Weigh(240_000, Opened),
    Stop(Nothing),
    Start(b"B"),
    Weigh(261_000, Nothing),
    Stop(Opened),
];

// The rows where the call of the cell fails that would give the item at this place, and the packs
// for which the gate opened.
const CELL_FAILS: [(&[Row], &[u32]); 6] = [
    (&[], &[]),
    (&[Start(b"A"), Stop(Nothing)], &[]),
    (&[Start(b"A"), Weigh(260_000, Nothing), Stop(Opened)], &[11]),
    (
        &[
            Start(b"A"),
            Weigh(260_000, Nothing),
            Weigh(240_000, Opened),
            Stop(Nothing),
        ],
        &[11],
    ),
    (
        &[
            Start(b"A"),
            Weigh(260_000, Nothing),
            Weigh(240_000, Opened),
            Stop(Nothing),
            Start(b"B"),
            Stop(Nothing),
        ],
        &[11],
    ),
    (&ROWS, &[11, 15]),
];

// The same of the calls of the gate.
const GATE_FAILS: [(&[Row], &[u32]); 2] = [
    (&[Start(b"A"), Weigh(260_000, Nothing), Stop(Stayed)], &[]),
    (
        &[
            Start(b"A"),
            Weigh(260_000, Nothing),
            Weigh(240_000, Opened),
            Stop(Nothing),
            Start(b"B"),
            Weigh(261_000, Nothing),
            Stop(Stayed),
        ],
        &[11],
    ),
];

// Whether a call of the cell fails as it is to.
fn cell_fails_right(alloc: Global, place: usize, rows: &[Row], opened: &[u32]) -> Option<bool> {
    let call = [u32::try_from(place).ok()?.saturating_add(1)];
    let given = Given {
        cell_fails: &call,
        ..GIVEN
    };
    let stop = Stopped::Cell;
    comes_out(alloc, &given, &Wanted { stop, rows, opened })
}

// The same of a call of the gate.
fn gate_fails_right(alloc: Global, place: usize, rows: &[Row], opened: &[u32]) -> Option<bool> {
    let call = [u32::try_from(place).ok()?.saturating_add(1)];
    let given = Given {
        gate_fails: &call,
        ..GIVEN
    };
    let stop = Stopped::Gate;
    comes_out(alloc, &given, &Wanted { stop, rows, opened })
}

// The packs for which the gate opened, where so many rows were added.
fn opened_of(rows: usize) -> &'static [u32] {
    match rows {
        0 | 1 => &[],
        2..6 => &[11],
        _ => &[11, 15],
    }
}

// A call of the disk fails, of the four that each row takes: the rows before are kept.
fn disk_fails_right(alloc: Global, call: u32) -> Option<bool> {
    let added = (call / 4) as usize;
    let calls = [CALLS.saturating_add(call).saturating_add(1)];
    let given = Given {
        disk_fails: &calls,
        ..GIVEN
    };
    let wanted = Wanted {
        stop: Stopped::Disk,
        rows: ROWS.get(..added)?,
        opened: opened_of(added),
    };
    comes_out(alloc, &given, &wanted)
}

// The first call of the cell that doesn't come out right.
fn first_wrong_of_cell(alloc: Global) -> Option<usize> {
    for (place, (rows, opened)) in CELL_FAILS.iter().enumerate() {
        if cell_fails_right(alloc, place, rows, opened) != Some(true) {
            return Some(place);
        }
    }
    None
}

// The first call of the gate that doesn't.
fn first_wrong_of_gate(alloc: Global) -> Option<usize> {
    for (place, (rows, opened)) in GATE_FAILS.iter().enumerate() {
        if gate_fails_right(alloc, place, rows, opened) != Some(true) {
            return Some(place);
        }
    }
    None
}

// The first call of the disk that doesn't.
fn first_wrong_of_disk(alloc: Global) -> Option<u32> {
    for call in 0..4 * 7 {
        if disk_fails_right(alloc, call) != Some(true) {
            return Some(call);
        }
    }
    None
}

#[test]
fn each_call_fails(rt: HostRuntime) -> Result<(), Fail> {
    assert_eq!(rt; first_wrong_of_cell(rt.alloc()), None);
    assert_eq!(rt; first_wrong_of_gate(rt.alloc()), None);
    assert_eq!(rt; first_wrong_of_disk(rt.alloc()), None);
    Ok(())
}
