use crate::books::{ROWS, long_run, weighed};
use crate::stores::{LOOK, Lines, Told, Way, act_on, calls_of, holds, use_bytes};
use book_words::{Entry, Prior};
use pack_judge::Signal;
use std::alloc::Global;
use std::test::Fail;

// The limit of one row doesn't bind it: what is asked behind that row is refused, and adopted.
const ADOPTED: Way = Way {
    rows: ROWS,
    adopts: true,
    limit: 1,
    ..LOOK
};

// Whether the long run is adopted.
fn is_adopted(alloc: Global, entries: &[Entry; 20]) -> bool {
    let used = use_bytes(alloc, &[], entries, ADOPTED);
    used.seen.right && holds(alloc, &used.disk, entries, ROWS)
}

// Behind five rows: a weighing that says what the gate did, where nothing passed; one with another
// signal than its own; a batch that is known; a second request of a desk without a first; and an
// act that has no signal with one.
fn unlawful(entries: &[Entry; 20]) -> [Entry; 5] {
    let signal = Some(Signal::Pass);
    [
        weighed(251_000, Prior::Opened, Signal::Pass),
        weighed(240_000, Prior::Nothing, Signal::Pass),
        entries[3],
        entries[11],
        Entry {
            signal,
            ..entries[9]
        },
    ]
}

const REFUSED: (Told, bool) = (Told::Refused, false);

// Whether an entry is refused three times, and the disk asked no more than for the rows before:
// mounting makes four calls and each act four.
fn is_refused(alloc: Global, entries: &[Entry; 20], entry: Entry) -> bool {
    let (lines, disk) = act_on(alloc, &[], entries, true, &[entry; 3]);
    lines == Some([REFUSED; 3]) && calls_of(&disk) == 24 && holds(alloc, &disk, entries, 5)
}

const ADDED: (Told, bool) = (Told::Row(6, None), false);

const FAILED: (Told, bool) = (Told::DiskFault, false);

const HANGS: (Told, bool) = (Told::DiskFault, true);

// Which calls fail, and what adopting the sixth entry three times is told, and whether an entry
// hangs then. The sixth row is written by the calls 25 to 28. Behind itself it isn't lawful, since
// it says nothing of the gate.
static ADOPTIONS: [(&[u32], Lines); 5] = [
    (&[], [ADDED, REFUSED, REFUSED]),
    (&[25], [FAILED, ADDED, REFUSED]),
    (&[26], [FAILED, ADDED, REFUSED]),
    (&[27], [HANGS, ADDED, REFUSED]),
    (&[28], [HANGS, ADDED, REFUSED]),
];

// Whether adopting the sixth entry comes out so.
fn is_told(alloc: Global, entries: &[Entry; 20], fails: &[u32], wanted: &Lines) -> bool {
    let (lines, disk) = act_on(alloc, fails, entries, true, &[entries[5]; 3]);
    lines == Some(*wanted) && holds(alloc, &disk, entries, 6)
}

// The same in each case.
fn are_told(alloc: Global, entries: &[Entry; 20]) -> bool {
    for place in 0..ADOPTIONS.len() {
        let (fails, wanted) = &ADOPTIONS[place];
        if !is_told(alloc, entries, fails, wanted) {
            return false;
        }
    }
    true
}

// Whether each of those entries is refused.
fn are_refused(alloc: Global, entries: &[Entry; 20]) -> bool {
    for entry in &unlawful(entries) {
        if !is_refused(alloc, entries, *entry) {
            return false;
        }
    }
    true
}

// All of these.
fn adopts(alloc: Global, entries: &[Entry; 20]) -> bool {
    is_adopted(alloc, entries) && are_refused(alloc, entries) && are_told(alloc, entries)
}

#[test]
fn a_list_is_adopted(rt: HostRuntime) -> Result<(), Fail> {
    assert!(rt; adopts(rt.alloc(), &long_run()?));
    Ok(())
}
