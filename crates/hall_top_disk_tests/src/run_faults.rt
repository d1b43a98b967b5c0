use crate::halls::{Asked, KEEPS, MOUNT_CALLS, SETUP_ROWS, ask, crashed, set_up};
use disk_core::{Keep, MemoryDisk};
use memory_hall::disk_of;
use std::alloc::Global;
use std::test::Fail;

// The acts of a desk, and a weighing.
const DAY: &[u8] = b"@101 1 product b 250\n@101 2 product c 250\n@101 3 product d 250\n\
weigh 1 260.000\n";

// The same, and two weighings more: all that three runs may offer.
const LONG_DAY: &[u8] = b"@101 1 product b 250\n@101 2 product c 250\n@101 3 product d 250\n\
weigh 1 260.000\nweigh 1 260.000\nweigh 1 260.000\n";

// How many calls the first run makes: the first row takes six, since the snapshot is then no longer
// the disk's, each other row four, and keeping the snapshot seven.
const CALLS: u32 = MOUNT_CALLS + 6 + 4 * 3 + 7;

// More than any run makes.
const MOST_CALLS: u32 = 2 * CALLS;

// What is told over a disk of 5 to 10 rows: the four answers, and the summary. The first acts that
// are asked again are old, the last one is told its row, and a weighing is always new.
const TOLD: [(&[u8], &[u8]); 6] = [
    (b"6 ok\n7 ok\n8 ok\n9 pass\n", ONE_WEIGHED),
    (b"6 ok\n7 ok\n8 ok\n9 pass\n", ONE_WEIGHED),
    (
        b"refused 2 RequestOld 2 at 7\n7 ok\n8 ok\n9 pass\n",
        ONE_WEIGHED,
    ),
    (
        b"refused 2 RequestOld 3 at 8\nrefused 2 RequestOld 3 at 8\n8 ok\n9 pass\n",
        ONE_WEIGHED,
    ),
    (
        b"refused 2 RequestOld 3 at 9\nrefused 2 RequestOld 3 at 9\n8 ok\n10 pass\n",
        TWO_WEIGHED,
    ),
    (
        b"refused 2 RequestOld 3 at 10\nrefused 2 RequestOld 3 at 10\n8 ok\n11 pass\n",
        THREE_WEIGHED,
    ),
];

const ONE_WEIGHED: &[u8] = b"rows 9\nreadings 1 gross 260.000\npassed 1 gross 260.000\n\
rejected 0 gross 0.000\nsampled 0 gross 0.000\nvoided 0 gross 0.000\n\
batches running 1 ended 0 drawn 0 closed 0\n";

const TWO_WEIGHED: &[u8] = b"rows 10\nreadings 2 gross 520.000\npassed 2 gross 520.000\n\
rejected 0 gross 0.000\nsampled 0 gross 0.000\nvoided 0 gross 0.000\n\
batches running 1 ended 0 drawn 0 closed 0\n";

const THREE_WEIGHED: &[u8] = b"rows 11\nreadings 3 gross 780.000\npassed 3 gross 780.000\n\
rejected 0 gross 0.000\nsampled 0 gross 0.000\nvoided 0 gross 0.000\n\
batches running 1 ended 0 drawn 0 closed 0\n";

const LONG_TOLD: &[u8] = b"6 ok\n7 ok\n8 ok\n9 pass\n10 pass\n11 pass\n\
rows 11\nreadings 3 gross 780.000\npassed 3 gross 780.000\n\
rejected 0 gross 0.000\nsampled 0 gross 0.000\nvoided 0 gross 0.000\n\
batches running 1 ended 0 drawn 0 closed 0\n";

// A disk that a run finds: its bytes, and the least and the most rows that it may hold.
#[derive(Drop)]
struct Found {
    bytes: Vec<u8>,
    rows: (usize, usize),
}

// Whether this is what is told before the disk fails, or the whole.
fn is_front(printed: &[u8], told: (&[u8], &[u8])) -> bool {
    match printed.strip_prefix(told.0) {
        Some(rest) => rest.is_empty() || rest == told.1,
        None => told.0.starts_with(printed) && (printed.is_empty() || printed.ends_with(b"\n")),
    }
}

// What was printed before the line that says that the disk failed, where it ends so.
fn before_fault(printed: &[u8]) -> &[u8] {
    printed.strip_suffix(b"disk fault\n").unwrap_or(printed)
}

// How many of the four answers there are in what was printed.
fn answers_in(printed: &[u8]) -> usize {
    let mut lines = 0usize;
    for byte in printed {
        if *byte == b'\n' {
            lines = lines.saturating_add(1);
        }
    }
    lines.min(4)
}

// How many rows there are behind so many answers over a disk of so many rows.
fn answered_rows(held: usize, answers: usize) -> usize {
    if held < 9 {
        held.max(5usize.saturating_add(answers))
    } else {
        held.saturating_add(answers / 4)
    }
}

// Whether a run over a disk that may hold so many rows ended as it has to.
fn is_right(asked: &Asked, printed: &[u8], rows: (usize, usize), whole: &Asked) -> bool {
    let held = asked.held as usize;
    let Some(told) = TOLD.get(held.wrapping_sub(5)) else {
        return held == 0 && printed.is_empty();
    };
    let there = asked.rows.as_slice();
    rows.0 <= held
        && held <= rows.1
        && is_front(printed, *told)
        && there.len() == answered_rows(held, answers_in(printed))
        && whole.rows.as_slice().starts_with(there)
        && (asked.status == 6 || printed.ends_with(told.1))
}

// How many rows a disk may hold behind a run, where it might hold so many before. A fault may leave
// one more than was answered.
fn left_rows(asked: &Asked, rows: (usize, usize)) -> (usize, usize) {
    let there = asked.rows.as_slice().len();
    match (asked.held, asked.status) {
        (0, _) => rows,
        (_, 0) => (there, there),
        _ => (there, there.saturating_add(1)),
    }
}

// Whether two disks are the same.
fn is_same(one: &Found, other: &Found) -> bool {
    one.rows == other.rows && one.bytes.as_slice() == other.bytes.as_slice()
}

// Whether a disk is among some.
fn is_known(disks: &[Found], wanted: &Found) -> bool {
    for found in disks {
        if is_same(found, wanted) {
            return true;
        }
    }
    false
}

// Adds a disk, unless it is among some. Says whether there was memory for it.
fn push_new(disks: &mut Vec<Found>, found: Found) -> bool {
    if is_known(disks, &found) {
        true
    } else {
        disks.push(found).is_ok()
    }
}

// Adds what a crash leaves of a disk, unless it is among some. Says whether there was memory.
fn push_crashed(
    disks: &mut Vec<Found>,
    disk: &MemoryDisk,
    keep: Keep,
    rows: (usize, usize),
) -> bool {
    match crashed(disk, keep) {
        Some(bytes) => push_new(disks, Found { bytes, rows }),
        None => false,
    }
}

// The same, in each way of a crash.
fn push_left(disks: &mut Vec<Found>, disk: &MemoryDisk, rows: (usize, usize)) -> bool {
    for keep in KEEPS {
        if !push_crashed(disks, disk, keep, rows) {
            return false;
        }
    }
    true
}

// Adds what a run over a disk left, and tells whether it failed; none where it came out otherwise
// than it has to.
fn push_asked(asked: &Asked, whole: &Asked, found: &Found, left: &mut Vec<Found>) -> Option<bool> {
    let printed = before_fault(asked.output.bytes());
    let failed = printed.len() < asked.output.bytes().len();
    let right = asked.status == if failed { 6 } else { 0 }
        && is_right(asked, printed, found.rows, whole)
        && push_left(left, &asked.disk, left_rows(asked, found.rows));
    right.then_some(failed)
}

// Runs the day over a disk of which a call fails, adds what it leaves, and tells whether it failed;
// none where it came out otherwise than it has to.
fn run_day(
    alloc: Global,
    whole: &Asked,
    found: &Found,
    call: u32,
    left: &mut Vec<Found>,
) -> Option<bool> {
    let asked = ask(alloc, "run", DAY, disk_of(alloc, &found.bytes, &[call]));
    push_asked(&asked, whole, found, left)
}

// Runs the day over a disk, each of its calls failing in turn, up to the run that makes no such
// call. Adds what these leave, and tells how many failed.
fn run_calls(alloc: Global, whole: &Asked, found: &Found, left: &mut Vec<Found>) -> Option<u32> {
    for call in 1..MOST_CALLS {
        if !run_day(alloc, whole, found, call, left)? {
            return Some(call.saturating_sub(1));
        }
    }
    None
}

// The same over each of some disks. Tells whether all came out as they have to.
fn run_disks(alloc: Global, whole: &Asked, disks: &[Found], left: &mut Vec<Found>) -> bool {
    for found in disks {
        if run_calls(alloc, whole, found, left).is_none() {
            return false;
        }
    }
    true
}

// Whether the day runs over a disk, and nothing fails.
fn is_calm(alloc: Global, whole: &Asked, found: &Found) -> bool {
    let mut left = Vec::new(alloc);
    run_day(alloc, whole, found, 0, &mut left) == Some(false)
}

// The same over each of some disks.
fn run_calm(alloc: Global, whole: &Asked, disks: &[Found]) -> bool {
    for found in disks {
        if !is_calm(alloc, whole, found) {
            return false;
        }
    }
    true
}

// Whether the second run over each of these disks came out as it has to, and the third over each
// that the second left.
fn run_twice(alloc: Global, whole: &Asked, once: &[Found]) -> bool {
    let mut twice = Vec::new(alloc);
    run_disks(alloc, whole, once, &mut twice) && run_calm(alloc, whole, &twice)
}

// How many calls the first run over a disk makes, where it and those behind it came out as they
// have to.
fn run_over(alloc: Global, whole: &Asked, first: &Found) -> Option<u32> {
    let mut once = Vec::new(alloc);
    let calls = run_calls(alloc, whole, first, &mut once);
    if run_twice(alloc, whole, &once) {
        calls
    } else {
        None
    }
}

// The same, where all that they may offer is told as it has to be.
fn run_told(alloc: Global, first: &Found) -> Option<u32> {
    let asked = ask(alloc, "run", LONG_DAY, disk_of(alloc, &first.bytes, &[]));
    if asked.output.bytes() == LONG_TOLD {
        run_over(alloc, &asked, first)
    } else {
        None
    }
}

// The same over the disk of the setup.
fn run_thrice(alloc: Global) -> Option<u32> {
    let first = Found {
        bytes: set_up(alloc),
        rows: (SETUP_ROWS, SETUP_ROWS),
    };
    run_told(alloc, &first)
}

// A run ends where its disk fails, so that two calls fail in two runs, one over what a crash left
// of the other's disk; a third run then finds the book.
#[test]
fn each_two_calls_fail_in_two_runs(rt: HostRuntime) -> Result<(), Fail> {
    assert_eq!(rt; run_thrice(rt.alloc()), Some(CALLS));
    Ok(())
}

const DAY_AND_ACT: &[u8] = b"day 2025-03-03\n@101 1 product a 250\n";

const ACT: &[u8] = b"@101 1 product a 250\n";

const ACT_TOLD: &[u8] = b"2 ok\nrows 2\nreadings 0 gross 0.000\npassed 0 gross 0.000\n\
rejected 0 gross 0.000\nsampled 0 gross 0.000\nvoided 0 gross 0.000\n\
batches running 0 ended 0 drawn 0 closed 0\n";

// Whether the act over a book of so many rows has row 2.
fn has_row(asked: &Asked, held: u32) -> bool {
    asked.output.bytes() == ACT_TOLD && (asked.status, asked.held) == (0, held)
}

// Whether the act is asked again over a disk with so many rows, and then has row 2.
fn is_told(alloc: Global, bytes: &[u8], held: u32) -> bool {
    let asked = ask(alloc, "run", ACT, disk_of(alloc, bytes, &[]));
    has_row(&asked, held)
}

// The same over what a crash leaves.
fn is_told_again(alloc: Global, disk: &MemoryDisk, keep: Keep, held: u32) -> bool {
    match crashed(disk, keep) {
        Some(bytes) => is_told(alloc, &bytes, held),
        None => false,
    }
}

// Whether the act failed, and is asked again over what a crash leaves: its row or not.
fn failed_and_acts(alloc: Global, asked: &Asked) -> bool {
    asked.status == 6
        && asked.output.bytes() == b"1 ok\ndisk fault\n".as_slice()
        && is_told_again(alloc, &asked.disk, Keep::Earlier, 1)
        && is_told_again(alloc, &asked.disk, Keep::Written, 2)
}

// The same of an act of which the last call fails.
fn fails_and_acts(alloc: Global) -> bool {
    let asked = ask(alloc, "run", DAY_AND_ACT, disk_of(alloc, &[], &[12]));
    failed_and_acts(alloc, &asked)
}

// Mounting an empty disk makes four calls, the day four, and the act a write, a sync, a write and
// the sync that fails.
#[test]
fn an_act_that_failed_is_asked_again(rt: HostRuntime) -> Result<(), Fail> {
    assert!(rt; fails_and_acts(rt.alloc()));
    Ok(())
}
