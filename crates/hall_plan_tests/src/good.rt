use hall_plan::{PlannedLane, read_plan};
use std::alloc::Global;

// A document, and what it says: the setup, the rows that room is made for, and of each lane its
// number and its batch, none where it changes it.
type Row = (
    &'static str,
    &'static str,
    u32,
    &'static [(u8, Option<&'static str>)],
);

const DAY_OF_RICE: &str = "\
setup = \"\"\"
day 2025-03-03
product rice250 250
tare rice250 2025-03-03 10
open A rice250
\"\"\"
reserve = 1000

[[lane]]
number = 1
batch = \"A\"
";

const SETUP_OF_RICE: &str = "\
day 2025-03-03
product rice250 250
tare rice250 2025-03-03 10
open A rice250
";

const OTHER_KEYS: &str = "\
title = 'Monday'
[[lane]]
batch = 'B'
number = 16
speed = 5
[[lane]]
number = 2
batch = 'A'
[owner]
reserve = 7
setup = 3
";

const LONGEST_NAME: &str = "\
[[lane]]
number = 1
batch = '0123456789abcdef0123456789abcdef'
";

const CHANGES: &str = "\
[[lane]]
number = 3
changes = true
[[lane]]
number = 1
batch = 'A'
[[lane]]
changes = true
number = 2
Batch = 'B'
";

static PLANS: [Row; 14] = [
    (DAY_OF_RICE, SETUP_OF_RICE, 1_000, &[(1, Some("A"))]),
    ("", "", 0, &[]),
    ("# nothing", "", 0, &[]),
    ("setup = ''", "", 0, &[]),
    ("setup = 'work 1 A'", "work 1 A", 0, &[]),
    ("reserve = 0", "", 0, &[]),
    ("reserve = 1_000_000", "", 1_000_000, &[]),
    ("reserve = 0x3e8", "", 1_000, &[]),
    ("lane = []", "", 0, &[]),
    (
        "lane = [{number = 2, batch = 'A'}, {number = 1, batch = 'A'}]",
        "",
        0,
        &[(2, Some("A")), (1, Some("A"))],
    ),
    (OTHER_KEYS, "", 0, &[(16, Some("B")), (2, Some("A"))]),
    (CHANGES, "", 0, &[(3, None), (1, Some("A")), (2, None)]),
    ("lane = [{number = 1, changes = true}]", "", 0, &[(1, None)]),
    (
        LONGEST_NAME,
        "",
        0,
        &[(1, Some("0123456789abcdef0123456789abcdef"))],
    ),
];

// Whether a lane has this batch, or changes it where there is none.
fn has_batch(lane: &PlannedLane, wanted: Option<&str>) -> bool {
    match (lane.batch, wanted) {
        (Some(batch), Some(wanted)) => batch.as_bytes() == wanted.as_bytes(),
        (None, None) => true,
        _ => false,
    }
}

// Whether these are the lanes.
fn are_lanes(lanes: &[PlannedLane], wanted: &[(u8, Option<&str>)]) -> bool {
    if lanes.len() != wanted.len() {
        return false;
    }
    for (lane, (number, batch)) in lanes.iter().zip(wanted) {
        if lane.number != *number || !has_batch(lane, *batch) {
            return false;
        }
    }
    true
}

// Whether a document is a plan of so many lanes, and says what it should.
fn says(alloc: Global, row: &Row) -> bool {
    let (document, setup, reserve, lanes) = *row;
    let Ok(count) = u8::try_from(lanes.len()) else {
        return false;
    };
    match read_plan(alloc, document.as_bytes(), count) {
        Ok(plan) => {
            plan.setup.as_bytes() == setup.as_bytes()
                && plan.reserve == reserve
                && are_lanes(plan.lanes.as_slice(), lanes)
        }
        Err(_) => false,
    }
}

// The first document that doesn't say what it should.
fn wrong_document(alloc: Global) -> Option<&'static str> {
    for row in &PLANS {
        if !says(alloc, row) {
            return Some(row.0);
        }
    }
    None
}

#[test]
fn plans_say_what_they_should(rt: HostRuntime) {
    assert_eq!(rt; wrong_document(rt.alloc()), None);
}
