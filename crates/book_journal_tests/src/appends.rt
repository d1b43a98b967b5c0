use crate::journals::{TestJournal, mount_bytes, mount_failing};
use crate::rows::full_row;
use disk_core::{Disk, Failed, Keep, MemoryDisk};
use std::alloc::Global;
use std::test::Fail;

/// What a crash may leave of the bytes that were written since the last sync.
pub(crate) const KEEPS: [Keep; 4] = [Keep::Earlier, Keep::Written, Keep::Fill(0), Keep::Fill(1)];

/// What a crash leaves after so many calls.
pub(crate) fn image(disk: &MemoryDisk, after: usize, keep: Keep) -> Option<Vec<u8>> {
    disk.crash(after.min(disk.calls_made()).min(1000) as u32, keep)
        .ok()
}

/// How many rows are mounted of these bytes.
pub(crate) fn mounted_rows(alloc: Global, bytes: Vec<u8>) -> Option<u32> {
    Some(mount_bytes(alloc, bytes)?.journal.count())
}

// How many rows a crash leaves after so many calls.
fn crash_rows(alloc: Global, disk: &MemoryDisk, after: usize, keep: Keep) -> Option<u32> {
    mounted_rows(alloc, image(disk, after, keep)?)
}

/// The same for each way of a crash.
pub(crate) fn rows_left(alloc: Global, disk: &MemoryDisk, after: usize) -> [Option<u32>; 4] {
    let [earlier, written, zeros, ones] = KEEPS;
    [
        crash_rows(alloc, disk, after, earlier),
        crash_rows(alloc, disk, after, written),
        crash_rows(alloc, disk, after, zeros),
        crash_rows(alloc, disk, after, ones),
    ]
}

// Which call fails, whether the journal hangs then, how many calls are made in all, and how many
// rows each way of a crash leaves after the call. A mount makes 4 calls, an append 4, one that
// fails 1 or 3, the next 4 or 6, and a row is read by one.
const FAILING: [(u32, bool, usize, [Option<u32>; 4]); 2] = [
    (9, false, 15, [Some(1), Some(1), Some(1), Some(1)]),
    (11, true, 19, [Some(1), Some(2), Some(1), Some(2)]),
];

// Whether the second of three appends fails, the third is the second row, and both rows are read.
fn goes_on<D: Disk>(kept: &mut TestJournal<D>, hanging: bool) -> bool {
    kept.add(&full_row(7)) == Ok(1)
        && kept.add(&full_row(8)) == Err(Failed)
        && kept.journal.count() == 1
        && kept.journal.hanging() == hanging
        && kept.add(&full_row(9)) == Ok(2)
        && !kept.journal.hanging()
        && kept.byte(1, 95) == Some(7)
        && kept.byte(2, 95) == Some(9)
}

// The calls that a disk was asked, and the rows that a crash leaves after the one that failed, if
// the journal goes on.
fn go_on(alloc: Global, failing: u32, hanging: bool) -> Option<(usize, [Option<u32>; 4])> {
    let mut kept = mount_failing(alloc, &[failing])?;
    if !goes_on(&mut kept, hanging) {
        return None;
    }
    let disk = kept.journal.give_back();
    Some((disk.calls_made(), rows_left(alloc, &disk, failing as usize)))
}

// Whether a journal goes on in each case.
fn goes_on_always(alloc: Global) -> bool {
    for (failing, hanging, calls, rows) in FAILING {
        if go_on(alloc, failing, hanging) != Some((calls, rows)) {
            return false;
        }
    }
    true
}

#[test]
fn a_journal_goes_on_after_a_failure_of_either_write(rt: HostRuntime) -> Result<(), Fail> {
    assert!(rt; goes_on_always(rt.alloc()));
    Ok(())
}

// The rows that are mounted after a crash behind each device call of a mount (4 calls), of three
// appends (4 calls each), of one that fails at its gate (3 calls) and of one more (6 calls).
const ROWS_AFTER: [(Keep, [u32; 26]); 4] = [
    (
        Keep::Earlier,
        [
            0, 0, 0, 0, 0, 0, 0, 0, 1, 1, 1, 1, 2, 2, 2, 2, 3, 3, 3, 3, 3, 3, 3, 3, 3, 4,
        ],
    ),
    (
        Keep::Written,
        [
            0, 0, 0, 0, 0, 0, 0, 1, 1, 1, 1, 2, 2, 2, 2, 3, 3, 3, 3, 4, 3, 3, 3, 3, 4, 4,
        ],
    ),
    (
        Keep::Fill(0),
        [
            0, 0, 0, 0, 0, 0, 0, 0, 1, 1, 1, 1, 2, 2, 2, 2, 3, 3, 3, 3, 3, 3, 3, 3, 3, 4,
        ],
    ),
    (
        Keep::Fill(1),
        [
            0, 0, 0, 0, 0, 0, 0, 1, 1, 1, 1, 2, 2, 2, 2, 3, 3, 3, 3, 4, 4, 3, 3, 3, 4, 4,
        ],
    ),
];

const ANSWERS: [(u8, Result<u32, Failed>); 5] = [
    (2, Ok(1)),
    (3, Ok(2)),
    (4, Ok(3)),
    (5, Err(Failed)),
    (6, Ok(4)),
];

// Whether each append is answered so.
fn answers<D: Disk>(kept: &mut TestJournal<D>) -> bool {
    for (byte, answer) in ANSWERS {
        if kept.add(&full_row(byte)) != answer {
            return false;
        }
    }
    true
}

// Whether a crash after each call leaves so many rows.
fn leaves(alloc: Global, disk: &MemoryDisk, keep: Keep, rows: &[u32; 26]) -> bool {
    for (after, count) in rows.iter().enumerate() {
        if crash_rows(alloc, disk, after, keep) != Some(*count) {
            return false;
        }
    }
    true
}

// The same for each way of a crash.
fn leaves_each_way(alloc: Global, disk: &MemoryDisk) -> bool {
    for (keep, rows) in &ROWS_AFTER {
        if !leaves(alloc, disk, *keep, rows) {
            return false;
        }
    }
    true
}

// The disk of these appends, of which the fourth fails, if each is answered so.
fn answered(alloc: Global) -> Option<MemoryDisk> {
    let mut kept = mount_failing(alloc, &[19])?;
    if answers(&mut kept) {
        Some(kept.journal.give_back())
    } else {
        None
    }
}

// Whether each way of a crash leaves what it may of them.
fn leaves_acknowledged(alloc: Global) -> bool {
    match answered(alloc) {
        Some(disk) => disk.calls_made() == 25 && leaves_each_way(alloc, &disk),
        None => false,
    }
}

#[test]
fn a_crash_after_any_call_leaves_what_was_acknowledged(rt: HostRuntime) -> Result<(), Fail> {
    assert!(rt; leaves_acknowledged(rt.alloc()));
    Ok(())
}

// Whether a crash after any call leaves so many rows.
fn leaves_rows(alloc: Global, disk: &MemoryDisk, count: u32) -> bool {
    for after in 0..disk.calls_made().saturating_add(1) {
        if rows_left(alloc, disk, after) != [Some(count); 4] {
            return false;
        }
    }
    true
}

// Whether the rows after a second crash, inside the mount that follows the first, are those after
// the first.
fn crash_twice(alloc: Global, disk: &MemoryDisk, after: usize, keep: Keep) -> Option<bool> {
    let kept = mount_bytes(alloc, image(disk, after, keep)?)?;
    let count = kept.journal.count();
    Some(leaves_rows(alloc, &kept.journal.give_back(), count))
}

// The same for each way of the first crash.
fn crash_each_way(alloc: Global, disk: &MemoryDisk, after: usize) -> bool {
    for keep in KEEPS {
        if crash_twice(alloc, disk, after, keep) != Some(true) {
            return false;
        }
    }
    true
}

// The disk of three appends, with a snapshot behind each.
fn three_kept(alloc: Global) -> Option<MemoryDisk> {
    let mut kept = mount_bytes(alloc, Vec::new(alloc))?;
    for byte in 2..5u8 {
        let _ = kept.add(&full_row(byte));
        let _ = kept.keep_rows(alloc);
    }
    Some(kept.journal.give_back())
}

// Whether no second crash takes anything away, after whichever call of a disk the first is.
fn crash_after_each(alloc: Global, disk: &MemoryDisk) -> bool {
    for after in 0..disk.calls_made() {
        if !crash_each_way(alloc, disk, after) {
            return false;
        }
    }
    true
}

// The same of that disk, which is asked more than 30 calls.
fn takes_nothing(alloc: Global) -> bool {
    match three_kept(alloc) {
        Some(disk) => disk.calls_made() > 30 && crash_after_each(alloc, &disk),
        None => false,
    }
}

#[test]
fn a_second_crash_takes_nothing_away(rt: HostRuntime) -> Result<(), Fail> {
    assert!(rt; takes_nothing(rt.alloc()));
    Ok(())
}
