use crate::plans::SETUP_OF_RICE;
use crate::runs::{Way, run_over};
use book_mount::mount;
use disk_core::MemoryDisk;
use memory_hall::disk_of;
use std::alloc::{AllocError, Global};

// Mounting takes four calls of the disk, and each row four.
const MOUNTED: u32 = 4;

// How many rows a disk has as it is opened again.
fn rows_again(alloc: Global, disk: MemoryDisk) -> Option<u32> {
    match mount(alloc, disk_of(alloc, disk.bytes(), &[]), 1_000_000) {
        Ok(store) => Some(store.len()),
        Err(_) => None,
    }
}

// Runs a setup of four rows over a disk of which one call fails: how it ends, how many rows it
// leaves, and how many the disk has as it is opened again.
fn ends_failing(alloc: Global, call: u32) -> Option<(Way, u32, u32)> {
    let disk = disk_of(alloc, &[], &[call]);
    let (way, store) = run_over(alloc, disk, SETUP_OF_RICE.as_bytes())?;
    let rows = store.len();
    let (disk, _) = store.close();
    Some((way, rows, rows_again(alloc, disk)?))
}

// Whether a setup stops at its row where a call of it fails: the rows before stand, and it may
// stand on the disk too.
fn stops_at(alloc: Global, place: u32) -> bool {
    let row = place / 4;
    match ends_failing(alloc, place.saturating_add(MOUNTED + 1)) {
        Some((Way::Row, rows, again)) => {
            rows == row && (again == row || again == row.saturating_add(1))
        }
        _ => false,
    }
}

// The first call of the rows, from 0, at which it doesn't stop so.
fn wrong_call(alloc: Global) -> Option<u32> {
    for place in 0..16u32 {
        if !stops_at(alloc, place) {
            return Some(place);
        }
    }
    None
}

// Whether no snapshot is kept behind a setup.
fn keeps_none(alloc: Global) -> bool {
    ends_failing(alloc, MOUNTED + 17) == Some((Way::SetUp, 4, 4))
}

#[test]
fn each_call_of_the_disk_fails(rt: HostRuntime) -> Result<(), AllocError> {
    assert!(rt; wrong_call(rt.alloc()).is_none() && keeps_none(rt.alloc()));
    Ok(())
}
