use crate::halls::{CALM, Case, ONE_LANE, SUMMARY, ends_so, output_of, play};
use memory_hall::CellItem::{Bad, Gross, Spent};
use std::alloc::Global;
use std::sync::Wait;
use std::test::Fail;
use std::thread::Threads;

const FAULTS: &[Case] = &[
    // the cell fails at its first call
    Case {
        plan: ONE_LANE,
        cells: &[&[Gross(251_000)]],
        cell_fails: &[1],
        printed: "\
lane 1 opened 0 cell
rows 6
readings 0 gross 0.000
passed 0 gross 0.000
rejected 0 gross 0.000
sampled 0 gross 0.000
voided 0 gross 0.000
batches running 1 ended 0 drawn 0 closed 0
",
        status: 10,
        rows: 6,
        ..CALM
    },
    // an item isn't a weight, and the door can't admit its connection: the least is answered
    Case {
        plan: ONE_LANE,
        cells: &[&[Bad { line: 1 }]],
        doors: &[&[SUMMARY]],
        door_fails: &[1],
        printed: "\
lane 1 opened 0 bad 1
door 1 served 0 links 0 door
rows 6
readings 0 gross 0.000
passed 0 gross 0.000
rejected 0 gross 0.000
sampled 0 gross 0.000
voided 0 gross 0.000
batches running 1 ended 0 drawn 0 closed 0
",
        status: 10,
        rows: 6,
        ..CALM
    },
    // the door can't admit its connection
    Case {
        doors: &[&[SUMMARY]],
        door_fails: &[1],
        printed: "\
door 1 served 0 links 0 door
rows 0
readings 0 gross 0.000
passed 0 gross 0.000
rejected 0 gross 0.000
sampled 0 gross 0.000
voided 0 gross 0.000
batches running 0 ended 0 drawn 0 closed 0
",
        status: 11,
        ..CALM
    },
    // a fault of the link ends a connection, and the cell of the lane is spent: the least is answered
    Case {
        plan: ONE_LANE,
        cells: &[&[Spent]],
        doors: &[&[SUMMARY]],
        door_fails: &[2],
        printed: "\
lane 1 opened 0 turns
door 1 served 0 links 1 done
rows 6
readings 0 gross 0.000
passed 0 gross 0.000
rejected 0 gross 0.000
sampled 0 gross 0.000
voided 0 gross 0.000
batches running 1 ended 0 drawn 0 closed 0
",
        status: 11,
        rows: 6,
        ..CALM
    },
    // the cell is spent
    Case {
        plan: ONE_LANE,
        cells: &[&[Gross(251_000), Spent]],
        printed: "\
lane 1 opened 1 turns
rows 7
readings 1 gross 251.000
passed 1 gross 251.000
rejected 0 gross 0.000
sampled 0 gross 0.000
voided 0 gross 0.000
batches running 1 ended 0 drawn 0 closed 0
",
        status: 12,
        rows: 7,
        ..CALM
    },
    // the output fails behind a lane that ended early
    Case {
        plan: ONE_LANE,
        cells: &[&[Gross(251_000)]],
        gate_fails: &[1],
        output_fails: &[1],
        status: 5,
        rows: 7,
        ..CALM
    },
    // the line of a bad plan can't be said
    Case {
        plan: "lane = 1\n",
        output_fails: &[1],
        status: 3,
        ..CALM
    },
    // the second door has no connection
    Case {
        doors: &[&[SUMMARY], &[]],
        printed: "\
door 1 served 1 links 0 done
door 2 served 0 links 0 done
rows 0
readings 0 gross 0.000
passed 0 gross 0.000
rejected 0 gross 0.000
sampled 0 gross 0.000
voided 0 gross 0.000
batches running 0 ended 0 drawn 0 closed 0
",
        ..CALM
    },
];

// Whether a case comes out as it says.
fn is_right<R: Threads + Wait + Sync>(rt: &R, alloc: Global, case: &Case) -> bool {
    let mut output = output_of(alloc, case);
    let ended = play(rt, alloc, "serve", case, &mut output);
    ends_so(&ended, output.bytes(), case)
}

// The place of the first case that comes out otherwise.
fn wrong_case<R: Threads + Wait + Sync>(rt: &R, alloc: Global) -> Option<usize> {
    for (place, case) in FAULTS.iter().enumerate() {
        if !is_right(rt, alloc, case) {
            return Some(place);
        }
    }
    None
}

#[test]
fn faults(rt: HostRuntime) -> Result<(), Fail> {
    assert_eq!(rt; wrong_case(&rt, rt.alloc()), None);
    Ok(())
}
