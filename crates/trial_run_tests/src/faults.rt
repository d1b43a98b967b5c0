use crate::runs::{Way, disk_failing, run_on};
use disk_core::MemorySink;
use std::alloc::{AllocError, Global};

// How the trial of 0 and 2 stops on a disk of which one call fails: mounting takes four calls, and
// each of the 17 rows four.
fn stop_at(alloc: Global, call: u32) -> Option<(Way, u32, usize)> {
    let mut output = MemorySink::new(alloc, Vec::new(alloc));
    let disk = disk_failing(alloc, &[call]).ok()?;
    let (way, rows, _) = run_on(alloc, disk, (0, 2), &mut output)?;
    Some((way, rows, output.bytes().len()))
}

// The first row whose last call fails and at which it doesn't stop so.
fn wrong_row(alloc: Global) -> Option<u32> {
    for row in 0..17u32 {
        if stop_at(alloc, row * 4 + 8) != Some((Way::Row, row, 0)) {
            return Some(row);
        }
    }
    None
}

#[test]
fn each_row_fails(rt: HostRuntime) -> Result<(), AllocError> {
    assert!(rt; wrong_row(rt.alloc()) == None);
    assert!(rt; stop_at(rt.alloc(), 73) == Some((Way::Snapshot, 17, 0)));
    Ok(())
}

// How it stops where its first write fails.
fn stop_unwritten(alloc: Global) -> Option<(Way, u32, usize)> {
    let fails = Vec::from_slice(alloc, &[1]).ok()?;
    let mut output = MemorySink::new(alloc, fails);
    let disk = disk_failing(alloc, &[]).ok()?;
    let (way, rows, _) = run_on(alloc, disk, (0, 2), &mut output)?;
    Some((way, rows, output.bytes().len()))
}

#[test]
fn summary_fails(rt: HostRuntime) -> Result<(), AllocError> {
    assert!(rt; stop_unwritten(rt.alloc()) == Some((Way::Cut, 17, 0)));
    Ok(())
}
