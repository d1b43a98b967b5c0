use crate::halls::{Given, NONE, work_twice};
use CellItem::{Bad, End, Gross, Spent};
use book_words::{Prior, Refusal, Refused};
use lane_worker::{LaneEnd, LaneStop};
use memory_hall::CellItem;
use std::alloc::Global;
use std::test::Fail;

// A worker that is given so, on a disk of which a call may fail, stops so: the gate opened for these
// packs, the book then has so many rows, and the last of them says this of the gate. The cell gives
// this item next.
struct Case {
    given: Given<'static>,
    disk_fails: &'static [u32],
    stop: LaneStop,
    opened: &'static [u32],
    rows: u32,
    prior: Option<Prior>,
    next: CellItem,
}

// The worker stops the lane (row 6), starts it (row 7), weighs, and stops it.
const CASES: [Case; 11] = [
    // a reject between two packs that pass
    Case {
        given: Given {
            items: &[
                Gross(260_000),
                Gross(240_000),
                Gross(261_000),
                End,
                Gross(1),
            ],
            ..NONE
        },
        disk_fails: &[],
        stop: LaneStop::Done,
        opened: &[8, 10],
        rows: 11,
        prior: Some(Prior::Opened),
        next: Gross(1),
    },
    // the last pack is rejected, and the end isn't among the items
    Case {
        given: Given {
            items: &[Gross(260_000), Gross(240_000)],
            ..NONE
        },
        disk_fails: &[],
        stop: LaneStop::Done,
        opened: &[8],
        rows: 10,
        prior: Some(Prior::Nothing),
        next: End,
    },
    // the cell fails at its second call
    Case {
        given: Given {
            items: &[Gross(260_000), Gross(261_000)],
            cell_fails: &[2],
            ..NONE
        },
        disk_fails: &[],
        stop: LaneStop::Cell,
        opened: &[8],
        rows: 9,
        prior: Some(Prior::Opened),
        next: Gross(261_000),
    },
    // the gate fails at its second call
    Case {
        given: Given {
            items: &[Gross(260_000), Gross(261_000), Gross(262_000)],
            gate_fails: &[2],
            ..NONE
        },
        disk_fails: &[],
        stop: LaneStop::Gate,
        opened: &[8],
        rows: 10,
        prior: Some(Prior::Stayed),
        next: Gross(262_000),
    },
    // something that isn't a weight
    Case {
        given: Given {
            items: &[Gross(260_000), Bad { line: 2 }, Gross(261_000)],
            ..NONE
        },
        disk_fails: &[],
        stop: LaneStop::Bad { line: 2 },
        opened: &[8],
        rows: 9,
        prior: Some(Prior::Opened),
        next: Gross(261_000),
    },
    // a bound of the cell
    Case {
        given: Given {
            items: &[Spent, Gross(261_000)],
            ..NONE
        },
        disk_fails: &[],
        stop: LaneStop::Turns,
        opened: &[],
        rows: 8,
        prior: Some(Prior::Nothing),
        next: Gross(261_000),
    },
    // no such lane: the question is refused
    Case {
        given: Given { number: 17, ..NONE },
        disk_fails: &[],
        stop: LaneStop::Refused(Refused {
            at: 5,
            refusal: Refusal::LaneNumber,
        }),
        opened: &[],
        rows: 5,
        prior: None,
        next: End,
    },
    // no such batch: the start is refused
    Case {
        given: Given {
            batch: b"B",
            items: &[Gross(260_000)],
            ..NONE
        },
        disk_fails: &[],
        stop: LaneStop::Refused(Refused {
            at: 6,
            refusal: Refusal::BatchUnknown,
        }),
        opened: &[],
        rows: 6,
        prior: Some(Prior::Nothing),
        next: Gross(260_000),
    },
    // no such gross: a weighing is refused, and what it says of the gate isn't taken down
    Case {
        given: Given {
            items: &[Gross(260_000), Gross(30_000_001), Gross(261_000)],
            ..NONE
        },
        disk_fails: &[],
        stop: LaneStop::Refused(Refused {
            at: 8,
            refusal: Refusal::GrossRange,
        }),
        opened: &[8],
        rows: 8,
        prior: Some(Prior::Nothing),
        next: Gross(261_000),
    },
    // the disk fails at the second weighing: opening takes 24 of its calls, and each row four
    Case {
        given: Given {
            items: &[Gross(260_000), Gross(261_000), Gross(262_000)],
            ..NONE
        },
        disk_fails: &[37],
        stop: LaneStop::DiskFault,
        opened: &[8],
        rows: 8,
        prior: Some(Prior::Nothing),
        next: Gross(262_000),
    },
    // the disk fails at the last stop, and what ended the weighing isn't told
    Case {
        given: Given {
            items: &[Gross(260_000)],
            cell_fails: &[2],
            ..NONE
        },
        disk_fails: &[37],
        stop: LaneStop::DiskFault,
        opened: &[8],
        rows: 8,
        prior: Some(Prior::Nothing),
        next: End,
    },
];

// Whether a case comes out as it is to.
fn is_right(alloc: Global, case: &Case) -> Option<bool> {
    let [seen, _] = work_twice(alloc, case.disk_fails, &case.given, case.opened)?;
    let wanted = LaneEnd {
        opened: u32::try_from(case.opened.len()).ok()?,
        stop: case.stop,
    };
    Some(
        seen.end == wanted
            && seen.opened
            && seen.rows == case.rows
            && seen.last == case.prior
            && seen.next == Some(case.next.next()),
    )
}

// The place of the first case that doesn't.
fn first_wrong(alloc: Global) -> Option<usize> {
    for (place, case) in CASES.iter().enumerate() {
        if is_right(alloc, case) != Some(true) {
            return Some(place);
        }
    }
    None
}

#[test]
fn each_stop(rt: HostRuntime) -> Result<(), Fail> {
    assert_eq!(rt; first_wrong(rt.alloc()), None);
    Ok(())
}
