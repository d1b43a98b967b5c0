use book_words::{Act, Name, Prior};
use lane_worker::{Cell, CellNext, LaneEnd, run_lane};
use memory_hall::{CellItem, MemoryCaller, MemoryLane, lane_of, open_book};
use std::alloc::Global;

/// The rows that the hall has before a worker comes: lane 1 runs for batch A.
pub(crate) const ROWS: u32 = 5;

/// How many calls of the disk they take: mounting makes four, and each row four.
pub(crate) const CALLS: u32 = 24;

/// What a worker is given: the number of its lane and its batch, the items of its cell, and which
/// calls of the cell and of the gate fail.
#[derive(Clone, Copy)]
pub(crate) struct Given<'g> {
    pub(crate) number: u8,
    pub(crate) batch: &'g [u8],
    pub(crate) items: &'g [CellItem],
    pub(crate) cell_fails: &'g [u32],
    pub(crate) gate_fails: &'g [u32],
}

/// A worker of lane 1 that weighs nothing.
pub(crate) const NONE: Given<'static> = Given {
    number: 1,
    batch: b"A",
    items: &[],
    cell_fails: &[],
    gate_fails: &[],
};

/// What is seen of a work: its end, whether the gate opened for the packs that are wanted, how many
/// rows the book then has, what the first and the last row that it added say of the gate, and what
/// its cell gives next.
#[derive(Clone, Copy)]
pub(crate) struct Seen {
    pub(crate) end: LaneEnd,
    pub(crate) opened: bool,
    pub(crate) rows: u32,
    pub(crate) first: Option<Prior>,
    pub(crate) last: Option<Prior>,
    pub(crate) next: Option<CellNext>,
}

/// A book with the opening rows, on a disk of which these calls fail. The worker of lane 1 speaks.
pub(crate) fn open_hall(alloc: Global, fails: &[u32]) -> Option<MemoryCaller> {
    open_book(alloc, fails, 5, 1)
}

// The lane that a worker is given.
fn given_lane(alloc: Global, given: &Given) -> MemoryLane {
    lane_of(alloc, given.items, given.cell_fails, given.gate_fails)
}

// What the row of a number says of the gate.
fn prior_at(hall: &MemoryCaller, number: u32) -> Option<Prior> {
    match hall.store().entry(number)?.act {
        Act::Weigh { prior, .. } => Some(prior),
        Act::StopLane { prior, .. } => Some(prior),
        _ => None,
    }
}

// Works a lane, and tells what is seen then; where the gate is to have opened for these packs.
fn look(
    hall: &mut MemoryCaller,
    lane: &mut MemoryLane,
    number: u8,
    batch: Name,
    opened: &[u32],
) -> Seen {
    let rows = hall.store().len();
    let end = run_lane(hall, lane, number, batch);
    Seen {
        end,
        opened: lane.gate.opened() == opened,
        rows: hall.store().len(),
        first: prior_at(hall, rows.saturating_add(1)),
        last: prior_at(hall, hall.store().len()),
        next: lane.cell.next().ok(),
    }
}

/// Works a lane that is given so, on a disk of which these calls fail, and then works lane 1 again
/// without a weight: what is seen behind each; where the gate is to have opened for these packs.
pub(crate) fn work_twice(
    alloc: Global,
    fails: &[u32],
    given: &Given,
    opened: &[u32],
) -> Option<[Seen; 2]> {
    let batch = Name::new(given.batch)?;
    let mut hall = open_hall(alloc, fails)?;
    let mut lane = given_lane(alloc, given);
    let mut empty = given_lane(alloc, &NONE);
    let seen = [
        look(&mut hall, &mut lane, given.number, batch, opened),
        look(&mut hall, &mut empty, 1, batch, &[]),
    ];
    let _ = hall.back().close();
    Some(seen)
}
