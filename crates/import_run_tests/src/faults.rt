use crate::runs::{Ends, Fails, Wanted, run_over, run_so};
use crate::tables::{TWO, TWO_ROWS};
use disk_core::{MemoryDisk, MemorySink, MemorySource};
use std::alloc::Global;
use std::test::Fail;

// What fails, and what comes of two acts. The first read gives the whole import, and the next one
// its end; there are two answers and a summary.
static FAULTS: [(Fails, Wanted); 7] = [
    ((3, 4, 0), (TWO_ROWS, Ends::Finished, 2)),
    // nothing was asked
    ((1, 0, 0), ("", Ends::ReadFault, 0)),
    ((2, 0, 0), ("", Ends::ReadFault, 0)),
    ((2, 1, 0), ("", Ends::ReadFault, 0)),
    // the text is lost, the row stands, and nothing more is asked
    ((0, 1, 0), ("", Ends::WriteFault, 1)),
    ((0, 2, 0), ("1 ok\n", Ends::WriteFault, 2)),
    ((0, 3, 0), ("1 ok\n2 ok\n", Ends::WriteFault, 2)),
];

// What fails first where something else comes of it.
fn wrong_fault(alloc: Global) -> Option<Fails> {
    for (fails, wanted) in &FAULTS {
        if run_so(alloc, Vec::new(alloc), TWO, *fails, *wanted).is_none() {
            return Some(*fails);
        }
    }
    None
}

#[test]
fn streams_fail(rt: HostRuntime) -> Result<(), Fail> {
    assert_eq!(rt; wrong_fault(rt.alloc()), None);
    Ok(())
}

// Mounting takes four calls of the disk, each row four, and the snapshot at the end some more.
const MOUNTED: u32 = 4;

// Runs two acts over a disk of which a call fails, and then again over what it reads: so they stand
// once. Whether the disk failed.
fn fails_and_comes_again(alloc: Global, call: u32) -> Option<bool> {
    let mut input = MemorySource::new(Vec::from_slice(alloc, TWO).ok()?, Vec::new(alloc));
    let mut output = MemorySink::new(alloc, Vec::new(alloc));
    let disk = MemoryDisk::new(alloc, Vec::new(alloc), vec![in alloc; call].ok()?);
    let (ends, rows, bytes) = run_over(alloc, disk, &mut input, &mut output)?;
    if ends == Ends::Finished {
        return Some(false);
    }
    let mut input = MemorySource::new(Vec::from_slice(alloc, TWO).ok()?, Vec::new(alloc));
    let disk = MemoryDisk::new(alloc, bytes, Vec::new(alloc));
    let (again, all, _) = run_over(alloc, disk, &mut input, &mut output)?;
    if (ends, again) == (Ends::DiskFault, Ends::Finished) && rows <= 2 && all == 2 {
        Some(true)
    } else {
        None
    }
}

// How many calls of the disk fail one by one, up to the first that a run doesn't make.
fn calls_that_fail(alloc: Global) -> Option<u32> {
    for call in 0..1_000 {
        if !fails_and_comes_again(alloc, MOUNTED + 1 + call)? {
            return Some(call);
        }
    }
    None
}

#[test]
fn the_disk_fails(rt: HostRuntime) -> Result<(), Fail> {
    let calls = calls_that_fail(rt.alloc());
    assert!(rt; calls > Some(8));
    Ok(())
}
