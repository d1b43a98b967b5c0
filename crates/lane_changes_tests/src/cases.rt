use crate::halls::{Before, Given, Row, Stopped, Wanted, comes_out};
use Row::{Start, Stop, Weigh};
use book_words::Prior::{Nothing, Opened, Unknown};
use memory_hall::CellItem;
use memory_hall::CellItem::{Bad, Batch, End, Gross, Spent};
use std::alloc::Global;
use std::test::Fail;

// The book before, the items of the cell, how the lane ends, the rows that it adds, and the packs for
// which the gate opened.
type Case = (
    Before,
    &'static [CellItem],
    Stopped,
    &'static [Row],
    &'static [u32],
);

// A gross of 251 g passes, and one of 240 g doesn't. The first row of the lane has the number 10.
const CHANGES: [Case; 6] = [
    (
        Before::Batches,
        &[
            Batch(b"A", 1),
            Gross(260_000),
            Gross(240_000),
            Batch(b"B", 4),
            Gross(261_000),
            End,
            Batch(b"A", 6),
        ],
        Stopped::Done,
        &[
            Start(b"A"),
            Weigh(260_000, Nothing),
            Weigh(240_000, Opened),
            Stop(Nothing),
            Start(b"B"),
            Weigh(261_000, Nothing),
            Stop(Opened),
        ],
        &[11, 15],
    ),
    // one batch twice
    (
        Before::Batches,
        &[
            Batch(b"A", 1),
            Gross(260_000),
            Batch(b"A", 3),
            Gross(261_000),
        ],
        Stopped::Done,
        &[
            Start(b"A"),
            Weigh(260_000, Nothing),
            Stop(Opened),
            Start(b"A"),
            Weigh(261_000, Nothing),
            Stop(Opened),
        ],
        &[11, 14],
    ),
    // no pack between two batches, and none behind them
    (
        Before::Batches,
        &[Batch(b"A", 1), Batch(b"B", 2)],
        Stopped::Done,
        &[Start(b"A"), Stop(Nothing), Start(b"B"), Stop(Nothing)],
        &[],
    ),
    // nothing at all, though the book has a lane that a kill left started
    (Before::Started, &[], Stopped::Done, &[], &[]),
    // what a kill left is stopped by the first work, and a pack that may have left is unknown
    (
        Before::Started,
        &[Batch(b"B", 1), Gross(260_000)],
        Stopped::Done,
        &[
            Stop(Nothing),
            Start(b"B"),
            Weigh(260_000, Nothing),
            Stop(Opened),
        ],
        &[13],
    ),
    (
        Before::Weighed,
        &[Batch(b"A", 1)],
        Stopped::Done,
        &[Stop(Unknown), Start(b"A"), Stop(Nothing)],
        &[],
    ),
];

// Starts that the book refuses, and weights without a batch.
const WAITS: [Case; 8] = [
    // two weights before the first batch
    (
        Before::Batches,
        &[
            Gross(260_000),
            Gross(30_000_001),
            Batch(b"A", 3),
            Gross(260_000),
        ],
        Stopped::Idle(2),
        &[Start(b"A"), Weigh(260_000, Nothing), Stop(Opened)],
        &[11],
    ),
    // one, though the book says that the lane has a batch
    (
        Before::Started,
        &[Gross(260_000), End],
        Stopped::Idle(1),
        &[],
        &[],
    ),
    // no such batch: the lane isn't started for the one before
    (
        Before::Batches,
        &[
            Batch(b"A", 1),
            Gross(260_000),
            Batch(b"X", 3),
            Gross(261_000),
            Gross(262_000),
            Batch(b"B", 6),
            Gross(263_000),
        ],
        Stopped::Refused(14, 12),
        &[
            Start(b"A"),
            Weigh(260_000, Nothing),
            Stop(Opened),
            Start(b"B"),
            Weigh(263_000, Nothing),
            Stop(Opened),
        ],
        &[11, 14],
    ),
    // a batch that has ended, and then one that isn't there: the first of them is told
    (
        Before::Batches,
        &[Batch(b"E", 1), Batch(b"X", 2), Gross(260_000)],
        Stopped::Refused(15, 9),
        &[],
        &[],
    ),
    // no tare
    (
        Before::Batches,
        &[Batch(b"A", 1), Batch(b"N", 2), Batch(b"A", 3)],
        Stopped::Refused(19, 11),
        &[Start(b"A"), Stop(Nothing), Start(b"A"), Stop(Nothing)],
        &[],
    ),
    // no day
    (
        Before::Nothing,
        &[Batch(b"A", 1), Gross(260_000), Batch(b"B", 3)],
        Stopped::Refused(6, 0),
        &[],
        &[],
    ),
    // a weight behind a refused start of a lane that a kill left started: it is stopped
    (
        Before::Weighed,
        &[Batch(b"X", 1), Gross(260_000)],
        Stopped::Refused(14, 12),
        &[Stop(Unknown)],
        &[],
    ),
    // what ends the last wait stands before a refused start and weights
    (
        Before::Batches,
        &[Batch(b"X", 1), Gross(260_000), Bad { line: 3 }],
        Stopped::Bad(3),
        &[],
        &[],
    ),
];

// What ends a lane as it ends one for one batch.
const ENDS: [Case; 5] = [
    (
        Before::Batches,
        &[
            Batch(b"A", 1),
            Gross(260_000),
            Bad { line: 3 },
            Batch(b"B", 4),
        ],
        Stopped::Bad(3),
        &[Start(b"A"), Weigh(260_000, Nothing), Stop(Opened)],
        &[11],
    ),
    (
        Before::Batches,
        &[Bad { line: 1 }, Batch(b"B", 2)],
        Stopped::Bad(1),
        &[],
        &[],
    ),
    (
        Before::Batches,
        &[Batch(b"A", 1), Spent, Batch(b"B", 2)],
        Stopped::Turns,
        &[Start(b"A"), Stop(Nothing)],
        &[],
    ),
    (
        Before::Batches,
        &[Gross(260_000), Spent, Batch(b"B", 2)],
        Stopped::Turns,
        &[],
        &[],
    ),
    // a weighing is refused
    (
        Before::Batches,
        &[
            Batch(b"A", 1),
            Gross(260_000),
            Gross(30_000_001),
            Batch(b"B", 4),
        ],
        Stopped::Refused(20, 11),
        &[Start(b"A"), Weigh(260_000, Nothing)],
        &[11],
    ),
];

// Whether a case comes out right.
fn is_right(alloc: Global, case: &Case) -> bool {
    let given = Given {
        before: case.0,
        items: case.1,
        cell_fails: &[],
        gate_fails: &[],
        disk_fails: &[],
    };
    let wanted = Wanted {
        stop: case.2,
        rows: case.3,
        opened: case.4,
    };
    comes_out(alloc, &given, &wanted) == Some(true)
}

// The place of the first case that doesn't.
fn first_wrong(alloc: Global, cases: &[Case]) -> Option<usize> {
    for (place, case) in cases.iter().enumerate() {
        if !is_right(alloc, case) {
            return Some(place);
        }
    }
    None
}

#[test]
fn lanes_change(rt: HostRuntime) -> Result<(), Fail> {
    assert_eq!(rt; first_wrong(rt.alloc(), &CHANGES), None);
    assert_eq!(rt; first_wrong(rt.alloc(), &WAITS), None);
    assert_eq!(rt; first_wrong(rt.alloc(), &ENDS), None);
    Ok(())
}
