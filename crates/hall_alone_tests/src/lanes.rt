use crate::halls::{MemoryEnd, book_of, only, run};
use disk_core::{MemorySink, QuietSource};
use lane_worker::LaneStop;
use memory_hall::CellItem::{Bad, Gross, Spent};
use memory_hall::{CellItem, copy, disk_of, lanes_of};
use std::alloc::Global;
use std::test::Fail;

// How a work ended, told in plain numbers.
#[derive(Clone, Copy, PartialEq)]
enum Stopped {
    Done,
    Cell,
    Gate,
    // The line that isn't a weight.
    Bad(u32),
    Idle(u32),
    // The number of the refusal, and how many rows there were.
    Refused(u8, u32),
    Disk,
    Memory,
    Turns,
}

// How a work ended.
fn told(stop: &LaneStop) -> Stopped {
    match stop {
        LaneStop::Done => Stopped::Done,
        LaneStop::Cell => Stopped::Cell,
        LaneStop::Gate => Stopped::Gate,
        LaneStop::Bad { line } | LaneStop::Change { line, .. } => Stopped::Bad(*line),
        LaneStop::Idle { weights } => Stopped::Idle(*weights),
        LaneStop::Refused(refused) => Stopped::Refused(refused.refusal.number(), refused.at),
        LaneStop::DiskFault => Stopped::Disk,
        LaneStop::NoMemory => Stopped::Memory,
        LaneStop::Turns => Stopped::Turns,
    }
}

// Which call fails, counted from 1, and 0 for none: of each cell, of each gate, of the disk, where
// those of the opening rows count, and of the output.
type Fails = (u32, u32, u32, u32);

// A run with lanes: what is handed in, and what comes of it.
struct Case {
    // What the cell of each lane gives.
    cells: &'static [&'static [CellItem]],
    fails: Fails,
    script: &'static str,
    // What is printed.
    printed: &'static str,
    status: u8,
    // How many rows are left.
    rows: usize,
    // The packs for which the gate of each lane opened.
    opened: &'static [&'static [u32]],
    // How often the gate opened in each work, and how that ended.
    ends: &'static [(u32, Stopped)],
}

// A day with a pack that was weighed on lane 1 and may have left.
const BEFORE: &[u8] = b"day 2025-03-03\nproduct rice250 250\ntare rice250 2025-03-03 10\n\
open A rice250\nstart 1 A\nweigh 1 251.000\n";

// Lane 1 is worked over that day. The pack that was found is unknown, so it is voided.
const BEHIND: [Case; 3] = [
    Case {
        cells: &[&[Gross(260_000)]],
        fails: (0, 0, 0, 0),
        script: "work 1 A\n",
        printed: "\
lane 1 opened 1 done
rows 10
readings 2 gross 511.000
passed 1 gross 260.000
rejected 0 gross 0.000
sampled 0 gross 0.000
voided 1 gross 251.000
batches running 1 ended 0 drawn 0 closed 0
",
        status: 0,
        rows: 10,
        opened: &[&[9]],
        ends: &[(1, Stopped::Done)],
    },
    // the gate stays shut, and the pack is rejected
    Case {
        cells: &[&[Gross(260_000)]],
        fails: (0, 1, 0, 0),
        script: "work 1 A\npack 9\n",
        printed: "\
lane 1 opened 0 gate
pack 9 batch A lane 1 gross 260.000 net 250.000 standard pass rejected
rows 10
readings 2 gross 511.000
passed 0 gross 0.000
rejected 1 gross 260.000
sampled 0 gross 0.000
voided 1 gross 251.000
batches running 1 ended 0 drawn 0 closed 0
",
        status: 10,
        rows: 10,
        opened: &[&[]],
        ends: &[(0, Stopped::Gate)],
    },
    // the cell has reached its bound
    Case {
        cells: &[&[Gross(260_000), Spent]],
        fails: (0, 0, 0, 0),
        script: "work 1 A\n",
        printed: "\
lane 1 opened 1 turns
rows 10
readings 2 gross 511.000
passed 1 gross 260.000
rejected 0 gross 0.000
sampled 0 gross 0.000
voided 1 gross 251.000
batches running 1 ended 0 drawn 0 closed 0
",
        status: 12,
        rows: 10,
        opened: &[&[9]],
        ends: &[(1, Stopped::Turns)],
    },
];

// Runs in which lanes end early, and the run goes on.
const EARLY: [Case; 5] = [
    // refused, and then a line that isn't a weight: the least status of both
    Case {
        cells: &[&[Bad { line: 3 }]],
        fails: (0, 0, 0, 0),
        script: "\
day 2025-03-03
work 1 A
product rice250 250
tare rice250 2025-03-03 10
open A rice250
work 1 A
lane 1
",
        printed: "\
1 ok
lane 1 opened 0 refused 14 at 1
2 ok
3 ok
4 ok
lane 1 opened 0 bad 3
lane 1 idle
rows 6
readings 0 gross 0.000
passed 0 gross 0.000
rejected 0 gross 0.000
sampled 0 gross 0.000
voided 0 gross 0.000
batches running 1 ended 0 drawn 0 closed 0
",
        status: 10,
        rows: 6,
        opened: &[&[]],
        ends: &[(0, Stopped::Refused(14, 1)), (0, Stopped::Bad(3))],
    },
    // two lanes, one after the other; the first cell fails at its second call
    Case {
        cells: &[&[Gross(260_000), Gross(261_000)], &[Gross(262_000)]],
        fails: (2, 0, 0, 0),
        script: "\
day 2025-03-03
product rice250 250
tare rice250 2025-03-03 10
open A rice250
work 1 A
work 2 A
work 1 A
",
        printed: "\
1 ok
2 ok
3 ok
4 ok
lane 1 opened 1 cell
lane 2 opened 1 cell
lane 1 opened 1 done
rows 13
readings 3 gross 783.000
passed 3 gross 783.000
rejected 0 gross 0.000
sampled 0 gross 0.000
voided 0 gross 0.000
batches running 1 ended 0 drawn 0 closed 0
",
        status: 10,
        rows: 13,
        opened: &[&[6, 12], &[9]],
        ends: &[(1, Stopped::Cell), (1, Stopped::Cell), (1, Stopped::Done)],
    },
    // a lane that wasn't handed in: a fault of the script comes before a lane's
    Case {
        cells: &[&[]],
        fails: (0, 0, 0, 0),
        script: "work 1 A\nwork 2 A\nsummary\n",
        printed: "lane 1 opened 0 refused 6 at 0\nbad line 2\n",
        status: 3,
        rows: 0,
        opened: &[&[]],
        ends: &[(0, Stopped::Refused(6, 0))],
    },
    Case {
        cells: &[],
        fails: (0, 0, 0, 0),
        script: "work 1 A\n",
        printed: "bad line 1\n",
        status: 3,
        rows: 0,
        opened: &[],
        ends: &[],
    },
    // an empty cell
    Case {
        cells: &[&[], &[]],
        fails: (0, 0, 0, 0),
        script: "\
day 2025-03-03
product rice250 250
tare rice250 2025-03-03 10
open A rice250
work 2 A
",
        printed: "\
1 ok
2 ok
3 ok
4 ok
lane 2 opened 0 done
rows 6
readings 0 gross 0.000
passed 0 gross 0.000
rejected 0 gross 0.000
sampled 0 gross 0.000
voided 0 gross 0.000
batches running 1 ended 0 drawn 0 closed 0
",
        status: 0,
        rows: 6,
        opened: &[&[], &[]],
        ends: &[(0, Stopped::Done)],
    },
];

// Runs that a lane stops.
const STOPPING: [Case; 3] = [
    // the disk fails at the lane's first weighing, its last call: the line comes, and then the fault
    Case {
        cells: &[&[Gross(260_000), Gross(261_000)]],
        fails: (0, 0, 28, 0),
        script: "\
day 2025-03-03
product rice250 250
tare rice250 2025-03-03 10
open A rice250
work 1 A
summary
",
        printed: "1 ok\n2 ok\n3 ok\n4 ok\nlane 1 opened 0 disk\ndisk fault\n",
        status: 6,
        rows: 5,
        opened: &[&[]],
        ends: &[(0, Stopped::Disk)],
    },
    // the same, and the output fails at the lane's line
    Case {
        cells: &[&[Gross(260_000), Gross(261_000)]],
        fails: (0, 0, 28, 5),
        script: "\
day 2025-03-03
product rice250 250
tare rice250 2025-03-03 10
open A rice250
work 1 A
summary
",
        printed: "1 ok\n2 ok\n3 ok\n4 ok\n",
        status: 5,
        rows: 5,
        opened: &[&[]],
        ends: &[(0, Stopped::Disk)],
    },
    // the output fails at the line of a lane that is done
    Case {
        cells: &[&[Gross(260_000)]],
        fails: (0, 0, 0, 5),
        script: "\
day 2025-03-03
product rice250 250
tare rice250 2025-03-03 10
open A rice250
work 1 A
summary
",
        printed: "1 ok\n2 ok\n3 ok\n4 ok\n",
        status: 5,
        rows: 7,
        opened: &[&[6]],
        ends: &[(1, Stopped::Done)],
    },
];

// Whether the gates of the lanes of a run opened for these packs.
fn are_opened(ended: &MemoryEnd, opened: &[&[u32]]) -> bool {
    for (lane, packs) in ended.lanes.iter().zip(opened) {
        if lane.gate.opened() != *packs {
            return false;
        }
    }
    true
}

// Whether the works of a run ended so.
fn have_ended(ended: &MemoryEnd, ends: &[(u32, Stopped)]) -> bool {
    let found = ended.lane_ends.as_slice();
    for (end, wanted) in found.iter().zip(ends) {
        if (end.opened, told(&end.stop)) != *wanted {
            return false;
        }
    }
    found.len() == ends.len()
}

// Whether a run of a case ended so, with what was printed.
fn ends_so(ended: &MemoryEnd, printed: &[u8], case: &Case) -> bool {
    ended.status == case.status
        && ended.rows.as_slice().len() == case.rows
        && are_opened(ended, case.opened)
        && have_ended(ended, case.ends)
        && printed == case.printed.as_bytes()
}

// Whether a case over a disk of these bytes comes out so.
fn is_right(alloc: Global, bytes: &[u8], case: &Case) -> bool {
    let mut input = QuietSource::new(copy(alloc, case.script.as_bytes()));
    let (cell, gate, disk, write) = case.fails;
    let mut output = MemorySink::new(alloc, only(alloc, write));
    let disk = disk_of(alloc, bytes, &[disk]);
    let lanes = lanes_of(alloc, case.cells, &[cell], &[gate]);
    let ended = run(alloc, &["run"], &mut input, &mut output, disk, lanes);
    ends_so(&ended, output.bytes(), case)
}

// The place of the first case that comes out otherwise over the disk that these scripts leave.
fn wrong_work(alloc: Global, scripts: &[&[u8]], cases: &[Case]) -> Option<usize> {
    let bytes = book_of(alloc, scripts);
    for (place, case) in cases.iter().enumerate() {
        if !is_right(alloc, &bytes, case) {
            return Some(place);
        }
    }
    None
}

// A test has one table: the proof of a body that holds several grows faster than they do.

#[test]
fn lanes_over_a_day(rt: HostRuntime) -> Result<(), Fail> {
    assert_eq!(rt; wrong_work(rt.alloc(), &[BEFORE], &BEHIND), None);
    Ok(())
}

#[test]
fn lanes_that_end_early(rt: HostRuntime) -> Result<(), Fail> {
    assert_eq!(rt; wrong_work(rt.alloc(), &[], &EARLY), None);
    Ok(())
}

#[test]
fn lanes_that_stop_a_run(rt: HostRuntime) -> Result<(), Fail> {
    assert_eq!(rt; wrong_work(rt.alloc(), &[], &STOPPING), None);
    Ok(())
}
