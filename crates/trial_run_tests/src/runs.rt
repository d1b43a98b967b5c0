use book_mount::mount;
use disk_core::{MemoryDisk, MemorySink};
use hall_limits::MAX_TRIAL;
use std::alloc::{AllocError, Global};
use store_runs::{Offer, Stop};
use trial_run::run_trial;

/// How a trial stopped.
#[derive(Clone, Copy, Debug, PartialEq, Eq)]
pub(crate) enum Way {
    Finished,
    Cut,
    Row,
    Snapshot,
    Other,
}

// How a trial stopped, where a row was offered by the script.
fn way_of(stop: &Stop) -> Way {
    match stop {
        Stop::Finished => Way::Finished,
        Stop::WriteFault => Way::Cut,
        Stop::DiskFault(Offer::Asked { by: 0, .. }) => Way::Row,
        Stop::DiskFault(Offer::Snapshot) => Way::Snapshot,
        _ => Way::Other,
    }
}

/// A disk without a byte, of which these calls fail.
pub(crate) fn disk_failing(alloc: Global, fails: &[u32]) -> Result<MemoryDisk, AllocError> {
    let fails = Vec::from_slice(alloc, fails)?;
    Ok(MemoryDisk::new(alloc, Vec::new(alloc), fails))
}

/// Runs the trial of two numbers over a disk: how it stopped, how many rows the book then has, and
/// the disk.
pub(crate) fn run_on(
    alloc: Global,
    disk: MemoryDisk,
    trial: (u64, u32),
    output: &mut MemorySink,
) -> Option<(Way, u32, MemoryDisk)> {
    let (number, count) = trial;
    if count == 0 || count > MAX_TRIAL {
        return None;
    }
    let Ok(store) = mount(alloc, disk, 1_000_000) else {
        return None;
    };
    let end = run_trial(alloc, store, number, count, output);
    let rows = end.store.len();
    let (disk, _) = end.store.close();
    Some((way_of(&end.stop), rows, disk))
}
