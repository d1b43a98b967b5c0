use crate::books::{ROWS, long_run};
use crate::stores::{CALLS, WHOLE, calls_of, copy, holds, survives, use_bytes, use_disk};
use book_words::Entry;
use disk_core::MemoryDisk;
use std::alloc::Global;
use std::test::Fail;

// The first call behind which a crash leaves other rows than the acknowledged ones and at most the
// next: mounting makes four calls, and each act four.
fn wrong_crash(alloc: Global, disk: &MemoryDisk, entries: &[Entry]) -> Option<u32> {
    for after in 0..CALLS + 1 {
        let least = (after.saturating_sub(4) / 4).min(ROWS);
        if !survives(
            alloc,
            disk,
            after,
            entries,
            WHOLE,
            (least, least.saturating_add(1)),
        ) {
            return Some(after);
        }
    }
    None
}

// Whether there is none in the long run over an empty disk.
fn survives_each(alloc: Global, entries: &[Entry]) -> bool {
    let used = use_bytes(alloc, &[], entries, WHOLE);
    used.seen.right
        && used.seen.held == 0
        && calls_of(&used.disk) == CALLS
        && wrong_crash(alloc, &used.disk, entries).is_none()
}

// Whether a run over a disk of which these calls fail makes each of them, and what is asked again
// acts once: the disk then holds each act once.
fn is_run(alloc: Global, fails: &[u32], entries: &[Entry]) -> bool {
    let disk = MemoryDisk::new(alloc, Vec::new(alloc), copy(alloc, fails));
    let used = use_disk(alloc, disk, entries, WHOLE);
    used.seen.right
        && used.seen.held == 0
        && used.seen.faults as usize == fails.len()
        && holds(alloc, &used.disk, entries, ROWS)
}

// The first later call that comes out otherwise, where it fails behind this one. Where one call
// fails at least one more is made, so that each of these second calls is made.
fn wrong_second(alloc: Global, first: u32, entries: &[Entry]) -> Option<u32> {
    for second in first.saturating_add(1)..CALLS + 2 {
        if !is_run(alloc, &[first, second], entries) {
            return Some(second);
        }
    }
    None
}

// The first call that comes out otherwise, where it fails alone, or where it and a later one do.
// What is asked again begins with the call behind the one that failed.
fn wrong_call(alloc: Global, entries: &[Entry]) -> Option<u32> {
    for first in 1..CALLS + 1 {
        if !is_run(alloc, &[first], entries) || wrong_second(alloc, first, entries).is_some() {
            return Some(first);
        }
    }
    None
}

#[test]
fn a_crash_after_each_call(rt: HostRuntime) -> Result<(), Fail> {
    assert!(rt; survives_each(rt.alloc(), &long_run()?));
    Ok(())
}

#[test]
fn each_call_fails_and_each_two(rt: HostRuntime) -> Result<(), Fail> {
    assert!(rt; wrong_call(rt.alloc(), &long_run()?).is_none());
    Ok(())
}
