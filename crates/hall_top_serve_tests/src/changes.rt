use crate::halls::{CALM, Case, ONE_LANE, ends_so, output_of, play};
use memory_hall::CellItem::{Batch, Gross};
use std::alloc::Global;
use std::sync::Wait;
use std::test::Fail;
use std::thread::Threads;

// A plan of one lane that changes its batch, with two batches open.
const CHANGING: &str = "\
setup = \"\"\"
day 2025-03-03
product rice250 250
tare rice250 2025-03-03 10
open A rice250
open B rice250
\"\"\"

[[lane]]
number = 1
changes = true
";

const CASES: &[Case] = &[
    Case {
        plan: CHANGING,
        cells: &[&[
            Batch(b"A", 1),
            Gross(251_000),
            Batch(b"B", 3),
            Gross(252_000),
        ]],
        printed: "\
lane 1 opened 2 done
rows 11
readings 2 gross 503.000
passed 2 gross 503.000
rejected 0 gross 0.000
sampled 0 gross 0.000
voided 0 gross 0.000
batches running 2 ended 0 drawn 0 closed 0
",
        rows: 11,
        ..CALM
    },
    // two weights come without a batch
    Case {
        plan: CHANGING,
        cells: &[&[
            Gross(251_000),
            Gross(251_000),
            Batch(b"A", 3),
            Gross(252_000),
        ]],
        printed: "\
lane 1 opened 1 idle 2
rows 8
readings 1 gross 252.000
passed 1 gross 252.000
rejected 0 gross 0.000
sampled 0 gross 0.000
voided 0 gross 0.000
batches running 2 ended 0 drawn 0 closed 0
",
        status: 10,
        rows: 8,
        ..CALM
    },
    // a batch that the book hasn't, behind one that it has
    Case {
        plan: CHANGING,
        cells: &[&[
            Batch(b"A", 1),
            Gross(252_000),
            Batch(b"X", 3),
            Gross(251_000),
        ]],
        printed: "\
lane 1 opened 1 refused 14 at 8
rows 8
readings 1 gross 252.000
passed 1 gross 252.000
rejected 0 gross 0.000
sampled 0 gross 0.000
voided 0 gross 0.000
batches running 2 ended 0 drawn 0 closed 0
",
        status: 10,
        rows: 8,
        ..CALM
    },
    // a lane that has one batch: what names another is bad
    Case {
        plan: ONE_LANE,
        cells: &[&[Gross(251_000), Batch(b"A", 2), Gross(252_000)]],
        printed: "\
lane 1 opened 1 bad 2
rows 7
readings 1 gross 251.000
passed 1 gross 251.000
rejected 0 gross 0.000
sampled 0 gross 0.000
voided 0 gross 0.000
batches running 1 ended 0 drawn 0 closed 0
",
        status: 10,
        rows: 7,
        ..CALM
    },
];

// Whether a case comes out as it says.
fn is_right<R: Threads + Wait + Sync>(rt: &R, alloc: Global, case: &Case) -> bool {
    let mut output = output_of(alloc, case);
    let ended = play(rt, alloc, "serve", case, &mut output);
    ends_so(&ended, output.bytes(), case)
}

// The place of the first case that comes out otherwise.
fn wrong_case<R: Threads + Wait + Sync>(rt: &R, alloc: Global) -> Option<usize> {
    for (place, case) in CASES.iter().enumerate() {
        if !is_right(rt, alloc, case) {
            return Some(place);
        }
    }
    None
}

#[test]
fn a_lane_changes_its_batch(rt: HostRuntime) -> Result<(), Fail> {
    assert_eq!(rt; wrong_case(&rt, rt.alloc()), None);
    Ok(())
}
