use crate::books::{long_run, weighed};
use crate::stores::{FIVE, LOOK, Lines, Told, Used, Way, act_on, calls_of, copy, holds, use_bytes};
use book_words::{Entry, Prior};
use disk_core::MemoryDisk;
use pack_judge::Signal;
use std::alloc::Global;
use std::test::Fail;

const SIX: Way = Way { rows: 6, ..LOOK };

const FIVE_KEPT: Way = Way {
    rests: true,
    ..FIVE
};

const FULL: (Told, bool) = (Told::Refused, false);

const HANGS: (Told, bool) = (Told::DiskFault, true);

const FAILED: (Told, bool) = (Told::DiskFault, false);

const PASSED: (Told, bool) = (Told::Row(6, Some(Signal::Pass)), false);

// Which calls fail, and what the sixth act, another in its place and this one again are told, and
// whether an entry hangs then. Mounting makes four calls and each act four, so that the calls 25 to
// 28 are those of the sixth act. Where it hangs, the next two close its gate.
static HANGING: [(&[u32], Lines); 10] = [
    (&[25], [FAILED, PASSED, FULL]),
    (&[26], [FAILED, PASSED, FULL]),
    (&[27], [HANGS, PASSED, FULL]),
    (&[28], [HANGS, PASSED, FULL]),
    (&[28, 29], [HANGS, HANGS, PASSED]),
    (&[28, 30], [HANGS, HANGS, PASSED]),
    (&[28, 31], [HANGS, FAILED, PASSED]),
    (&[28, 32], [HANGS, FAILED, PASSED]),
    (&[28, 33], [HANGS, HANGS, PASSED]),
    (&[28, 34], [HANGS, HANGS, PASSED]),
];

// Whether the three acts come out so. The disk then has the other act as row 6.
fn is_told(alloc: Global, entries: &[Entry; 20], fails: &[u32], wanted: &Lines) -> bool {
    let other = weighed(255_000, Prior::Nothing, Signal::Pass);
    let mut rows = *entries;
    rows[5] = other;
    let (lines, disk) = act_on(alloc, fails, entries, false, &[entries[5], other, other]);
    lines == Some(*wanted) && holds(alloc, &disk, &rows, 6)
}

// The same in each case.
fn are_told(alloc: Global, entries: &[Entry; 20]) -> bool {
    for place in 0..HANGING.len() {
        let (fails, wanted) = &HANGING[place];
        if !is_told(alloc, entries, fails, wanted) {
            return false;
        }
    }
    true
}

#[test]
fn another_act_behind_one_that_hangs(rt: HostRuntime) -> Result<(), Fail> {
    assert!(rt; are_told(rt.alloc(), &long_run()?));
    Ok(())
}

// How many calls a disk of these bytes is asked, if all is right.
fn opening_calls(alloc: Global, bytes: &[u8], entries: &[Entry], way: Way) -> u32 {
    let used = use_bytes(alloc, bytes, entries, way);
    if used.seen.right {
        calls_of(&used.disk)
    } else {
        0
    }
}

// The bytes of a disk that was empty.
fn bytes_of(alloc: Global, entries: &[Entry], way: Way) -> Vec<u8> {
    copy(alloc, use_bytes(alloc, &[], entries, way).disk.bytes())
}

// How many calls a weighing behind five rows makes over its snapshot more than opening that. The
// mark says that the disk ends with a snapshot, which the weighing makes untrue.
fn weighing_calls(alloc: Global, entries: &[Entry], kept: &[u8]) -> u32 {
    let used = use_bytes(alloc, kept, entries, SIX);
    if used.seen.right && used.disk.bytes().get(8).copied() == Some(0) {
        calls_of(&used.disk).saturating_sub(opening_calls(alloc, kept, entries, LOOK))
    } else {
        0
    }
}

// Whether the disk of five rows with their snapshot is marked, and a weighing makes six such calls.
fn makes_six(alloc: Global, entries: &[Entry]) -> bool {
    let kept = bytes_of(alloc, entries, FIVE_KEPT);
    kept.len() == 1_056
        && kept.get(8).copied() == Some(1)
        && weighing_calls(alloc, entries, &kept) == 6
}

// Whether five rows and six take so many calls.
fn take_calls(alloc: Global, entries: &[Entry]) -> bool {
    opening_calls(alloc, &[], entries, FIVE) == 24
        && opening_calls(alloc, &[], entries, SIX) == 28
        && makes_six(alloc, entries)
}

#[test]
fn a_weighing_and_its_calls(rt: HostRuntime) -> Result<(), Fail> {
    assert!(rt; take_calls(rt.alloc(), &long_run()?));
    Ok(())
}

const MANY: Way = Way { rows: 663, ..LOOK };

const MANY_KEPT: Way = Way {
    rests: true,
    ..MANY
};

// Room for as many weighings as a book of 663 rows has.
const MANY_RESERVED: Way = Way {
    room: 658,
    limit: 663,
    ..MANY
};

// Five rows and 658 weighings, whose content has 171 bytes, 14 of the first weighing, which has
// nothing to say of the gate, and 16 of each other one: 10 697.
fn many_entries(alloc: Global, entries: &[Entry]) -> Vec<Entry> {
    let mut all = copy(alloc, entries);
    all.truncate(5);
    let _ = all.push(weighed(255_000, Prior::Nothing, Signal::Pass));
    for _turn in 0..657u32 {
        let _ = all.push(weighed(255_000, Prior::Opened, Signal::Pass));
    }
    all
}

// A book that is taken so far, as its disk is mounted.
fn mount_many(alloc: Global, entries: &[Entry], way: Way) -> Used<MemoryDisk> {
    use_bytes(alloc, &bytes_of(alloc, entries, way), entries, LOOK)
}

// Whether all rows are there.
fn are_many(used: &Used<MemoryDisk>) -> bool {
    used.seen.right && used.seen.held == 663
}

// Whether they are mounted by few calls where there is a snapshot: 4 096 bytes, and as many for
// each of the three calls that the content takes, are 16 384.
fn mounts_snapshot(alloc: Global, entries: &[Entry]) -> bool {
    let used = mount_many(alloc, entries, MANY_KEPT);
    are_many(&used) && calls_of(&used.disk) <= 23 && used.disk.asked_bytes() <= 16_384
}

// Whether their slots are read where there is none: 663 of 96 bytes are 63 648.
fn mounts_slots(alloc: Global, entries: &[Entry]) -> bool {
    let used = mount_many(alloc, entries, MANY);
    are_many(&used) && 63_648 <= used.disk.asked_bytes()
}

// Whether they are mounted so either way, and each act made four calls where room was taken.
fn mounts_many(alloc: Global, entries: &[Entry]) -> bool {
    mounts_snapshot(alloc, entries)
        && mounts_slots(alloc, entries)
        && opening_calls(alloc, &[], entries, MANY_RESERVED) == 4 + 4 * 663
}

#[test]
fn many_rows_are_mounted_by_few_calls(rt: HostRuntime) -> Result<(), Fail> {
    assert!(rt; mounts_many(rt.alloc(), &many_entries(rt.alloc(), &long_run()?)));
    Ok(())
}
