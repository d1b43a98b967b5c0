use hall_plan::{PlanError, read_plan};
use std::alloc::Global;

// Values of the two keys that stand alone, with no lane.
static VALUES: [&str; 15] = [
    "setup = 5",
    "setup = ['day 2025-03-03']",
    "setup = 2025-03-03",
    "reserve = '1000'",
    "reserve = 1000.0",
    "reserve = 2025-03-03",
    "reserve = true",
    "reserve = [1000]",
    "reserve = 1000001",
    "reserve = -1",
    "reserve = 4294967296",
    "reserve = 9223372036854775807",
    "lane = 1",
    "lane = 'A'",
    "lane = {}",
];

// What is said of one lane.
static LANES: [&str; 30] = [
    "",
    "lane = []",
    "lane = [1]",
    "lane = ['A']",
    "lane = [[1, 'A']]",
    "lane = [{}]",
    "lane = [{number = 1}]",
    "lane = [{batch = 'A'}]",
    "lane = {number = 1, batch = 'A'}",
    "[lane]\nnumber = 1\nbatch = 'A'",
    "[[lane]]\nnumber = 0\nbatch = 'A'",
    "[[lane]]\nnumber = 17\nbatch = 'A'",
    "[[lane]]\nnumber = -1\nbatch = 'A'",
    "[[lane]]\nnumber = 257\nbatch = 'A'",
    "[[lane]]\nnumber = 1.0\nbatch = 'A'",
    "[[lane]]\nnumber = 1979-05-27\nbatch = 'A'",
    "[[lane]]\nnumber = 1\nbatch = 1",
    "[[lane]]\nnumber = 1\nbatch = ''",
    "[[lane]]\nnumber = 1\nbatch = '0123456789abcdef0123456789abcdefg'",
    "[[lane]]\nnumber = 1\nbatch = true",
    "[[lane]]\nnumber = 1\nbatch = 'A'\nchanges = true",
    "[[lane]]\nnumber = 1\nbatch = 'A'\nchanges = false",
    "[[lane]]\nnumber = 1\nbatch = 'A'\nchanges = 'B'",
    "[[lane]]\nnumber = 1\nbatch = ''\nchanges = true",
    "[[lane]]\nnumber = 1\nchanges = false",
    "[[lane]]\nnumber = 1\nchanges = 'true'",
    "[[lane]]\nnumber = 1\nchanges = 1",
    "[[lane]]\nnumber = 1\nchanges = [true]",
    "[[lane]]\nnumber = 1\nCHANGES = true",
    "[[lane]]\nchanges = true",
];

// What is said of two lanes.
static PAIRS: [&str; 4] = [
    "[[lane]]\nnumber = 1\nbatch = 'A'",
    "[[lane]]\nnumber = 1\nbatch = 'A'\n[[lane]]\nnumber = 1\nbatch = 'B'",
    "[[lane]]\nnumber = 1\nbatch = 'A'\n[[lane]]\nnumber = 17\nbatch = 'B'",
    "lane = [{number = 3, batch = 'A'}, {number = 1, batch = 'A'}, {number = 2, batch = 'A'}]",
];

// Texts that are no document in TOML.
static TEXTS: [&str; 8] = [
    "setup",
    "setup = 'day",
    "setup = day",
    "reserve = 01",
    "reserve = 1\nreserve = 1",
    "[[owner]]\nname = 1\nname = 1",
    "owner = []\n[[owner]]",
    "owner = {a = 1\n",
];

// The first of some documents that isn't bad as a plan of so many lanes.
fn first_taken(alloc: Global, documents: &[&'static str], lanes: u8) -> Option<&'static str> {
    for document in documents {
        match read_plan(alloc, document.as_bytes(), lanes) {
            Err(PlanError::Bad) => {}
            _ => return Some(*document),
        }
    }
    None
}

#[test]
fn documents_of_other_forms_are_bad(rt: HostRuntime) {
    assert_eq!(rt; first_taken(rt.alloc(), &VALUES, 0), None);
    assert_eq!(rt; first_taken(rt.alloc(), &LANES, 1), None);
    assert_eq!(rt; first_taken(rt.alloc(), &PAIRS, 2), None);
    assert_eq!(rt; first_taken(rt.alloc(), &TEXTS, 0), None);
}
