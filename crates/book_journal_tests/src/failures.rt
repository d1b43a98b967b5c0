use crate::appends::rows_left;
use crate::journals::{TestJournal, mount_failing};
use crate::rows::full_row;
use disk_core::{Disk, MemoryDisk};
use std::alloc::Global;
use std::test::Fail;

// How many of four appends are acknowledged, where a snapshot is kept behind the second and the
// third.
fn acknowledged<D: Disk>(alloc: Global, kept: &mut TestJournal<D>) -> u32 {
    let mut acknowledged = 0u32;
    for byte in 2..6u8 {
        acknowledged = acknowledged.saturating_add(u32::from(kept.add(&full_row(byte)).is_ok()));
        if byte == 3 || byte == 4 {
            let _ = kept.keep_rows(alloc);
        }
    }
    acknowledged
}

// Whether these are the rows that were acknowledged, or one more.
fn stand(acknowledged: u32, rows: &[Option<u32>; 4]) -> bool {
    for count in rows {
        if *count != Some(acknowledged) && *count != acknowledged.checked_add(1) {
            return false;
        }
    }
    true
}

// Whether at least two appends are acknowledged, and stand whatever a crash leaves then.
fn acknowledged_stand(alloc: Global, kept: TestJournal<MemoryDisk>) -> bool {
    let mut kept = kept;
    let acknowledged = acknowledged(alloc, &mut kept);
    let rows = rows_left(alloc, &kept.journal.give_back(), 1000);
    acknowledged >= 2 && stand(acknowledged, &rows)
}

// The same of a disk of which two calls fail.
fn two_failures_stand(alloc: Global, first: u32, second: u32) -> bool {
    match mount_failing(alloc, &[first, second]) {
        Some(kept) => acknowledged_stand(alloc, kept),
        None => false,
    }
}

// The same of all later calls, where this is the first that fails.
fn later_failures_stand(alloc: Global, first: u32) -> bool {
    for second in first..52 {
        if !two_failures_stand(alloc, first, second) {
            return false;
        }
    }
    true
}

// The same of all calls.
fn stands_always(alloc: Global) -> bool {
    for first in 1..50 {
        if !later_failures_stand(alloc, first) {
            return false;
        }
    }
    true
}

// Mounting makes 4 calls, the appends 4, 4, 6 and 6, the snapshots 7 each and one more for each row
// that is read, so these are 43 calls where none fails.
#[test]
fn what_was_acknowledged_stands_whichever_calls_fail(rt: HostRuntime) -> Result<(), Fail> {
    assert!(rt; stands_always(rt.alloc()));
    Ok(())
}
