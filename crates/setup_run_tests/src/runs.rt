use book_mount::mount;
use book_store::Store;
use book_words::Refused;
use disk_core::MemoryDisk;
use memory_hall::disk_of;
use setup_run::{NoNotices, SetupNotices, run_setup};
use std::alloc::Global;
use store_runs::{Offer, Stop};

/// How a setup ends.
#[derive(Clone, Copy, Debug, PartialEq, Eq)]
pub(crate) enum Way {
    SetUp,
    BadLine(u64),
    Row,
    Other,
}

// How it stopped, where a row was offered by the script.
fn way_of(stop: &Stop) -> Way {
    match stop {
        Stop::BadLine(number) => Way::BadLine(*number),
        Stop::DiskFault(Offer::Asked { by: 0, .. }) => Way::Row,
        _ => Way::Other,
    }
}

/// Runs a setup over a disk that can be mounted: how it ends, and the store.
pub(crate) fn run_over(
    alloc: Global,
    disk: MemoryDisk,
    setup: &[u8],
) -> Option<(Way, Store<MemoryDisk>)> {
    let Ok(store) = mount(alloc, disk, 1_000_000) else {
        return None;
    };
    match run_setup(store, setup, &mut NoNotices) {
        Ok(store) => Some((Way::SetUp, store)),
        Err(end) => Some((way_of(&end.stop), end.store)),
    }
}

/// How a setup over an empty book ends, and how many rows it leaves.
pub(crate) fn ends(alloc: Global, setup: &[u8]) -> Option<(Way, u32)> {
    let (way, store) = run_over(alloc, disk_of(alloc, &[], &[]), setup)?;
    Some((way, store.len()))
}

// The lines that were refused: their numbers, those of their refusals, how many bytes they have.
#[derive(Drop)]
struct Told {
    lines: Vec<(u64, u8, usize)>,
}

impl SetupNotices for Told {
    fn refused(&mut self, number: u64, line: &[u8], refused: &Refused) {
        let _ = self
            .lines
            .push((number, refused.refusal.number(), line.len()));
    }
}

/// Which lines of a setup over an empty book are refused.
pub(crate) fn refusals(alloc: Global, setup: &[u8]) -> Option<Vec<(u64, u8, usize)>> {
    let disk = disk_of(alloc, &[], &[]);
    let Ok(store) = mount(alloc, disk, 1_000_000) else {
        return None;
    };
    let mut told = Told {
        lines: Vec::new(alloc),
    };
    let store = match run_setup(store, setup, &mut told) {
        Ok(store) => store,
        Err(end) => end.store,
    };
    let _ = store.close();
    Some(told.lines)
}
