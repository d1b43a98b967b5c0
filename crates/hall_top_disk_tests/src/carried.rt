use crate::halls::{Asked, KEEPS, ask, calls_of, crashed};
use disk_core::{Keep, MemoryDisk};
use memory_hall::disk_of;
use std::alloc::Global;
use std::test::Fail;

// A journal of version 1 with a day, a product and a closed gate, written by hand from
// docs/FORMATS.md.
const JOURNAL: &[u8] = b"AQHBOOK1\0\0\0\0\0\0\0\0\0\0\0\0\0\0\0\0\0\0\0\0\
\0\0\0\0\0\0\0\0\0\0\0\0\0\0\0\0\0\0\0\0\0\0\0\0\0\0\0\0\0\0\0\0\0\0\0\0\
\x01\x01\x01\0\0\0\0\0\0\0\0\0\0\0\xb6\x4e\0\0\0\0\0\0\0\0\0\0\0\0\0\0\0\0\
\0\0\0\0\0\0\0\0\0\0\0\0\0\0\0\0\0\0\0\0\0\0\0\0\0\0\0\0\0\0\0\0\
\x01\x02\x02\0\0\0\0\0\0\0\0\0\0\0\x07rice250\0\0\0\0\0\0\0\0\0\
\x90\xd0\x03\0\0\0\0\0\0\0\0\0\0\0\0\0\0\0\0\0\0\0\0\0\0\0\0\0\0\0\0\0\0\0";

// How many calls carrying it into an empty disk makes: mounting four, each row four and keeping the
// snapshot seven.
const CALLS: u32 = 4 + 4 * 2 + 7;

// Carries the journal into a disk of these bytes, of which these calls fail.
fn carry(alloc: Global, bytes: &[u8], fails: &[u32]) -> Asked {
    ask(alloc, "migrate", JOURNAL, disk_of(alloc, bytes, fails))
}

// Whether the journal was carried, and its two rows are there.
fn is_whole(asked: &Asked) -> bool {
    let rows = asked.rows.as_slice().len();
    (asked.status, rows) == (0, 2) && asked.output.bytes() == b"rows 2 whole\n".as_slice()
}

// Whether the journal is carried into a disk of these bytes.
fn is_carried(alloc: Global, bytes: &[u8]) -> bool {
    let asked = carry(alloc, bytes, &[]);
    is_whole(&asked)
}

// Whether it is carried again into what a crash leaves of a disk.
fn is_carried_behind(alloc: Global, disk: &MemoryDisk, keep: Keep) -> bool {
    match crashed(disk, keep) {
        Some(bytes) => is_carried(alloc, &bytes),
        None => false,
    }
}

// The same, in each way of a crash.
fn is_carried_again(alloc: Global, disk: &MemoryDisk) -> bool {
    for keep in KEEPS {
        if !is_carried_behind(alloc, disk, keep) {
            return false;
        }
    }
    true
}

// Whether a carrying of which a call failed came out as it has to.
fn failed_so(alloc: Global, asked: &Asked) -> bool {
    asked.status == 6
        && asked.output.bytes() == b"disk fault\n".as_slice()
        && is_carried_again(alloc, &asked.disk)
}

// Whether a call that fails as the journal is carried comes out as it has to.
fn fails_so(alloc: Global, call: u32) -> bool {
    let asked = carry(alloc, &[], &[call]);
    failed_so(alloc, &asked)
}

// The first call that comes out otherwise.
fn wrong_call(alloc: Global) -> Option<u32> {
    for call in 1..CALLS + 1 {
        if !fails_so(alloc, call) {
            return Some(call);
        }
    }
    None
}

// Whether the journal is carried by so many calls, and carried again.
fn is_carried_twice(alloc: Global) -> bool {
    let asked = carry(alloc, &[], &[]);
    let disk = &asked.disk;
    calls_of(disk) == CALLS && is_carried(alloc, disk.bytes())
}

#[test]
fn a_journal_is_carried_again(rt: HostRuntime) -> Result<(), Fail> {
    assert!(rt; is_carried_twice(rt.alloc()));
    assert_eq!(rt; wrong_call(rt.alloc()), None);
    Ok(())
}
