use disk_core::MemorySource;
use memory_hall::copy;
use std::alloc::{AllocError, Global};
use text_streams::{Unread, read_whole};

// Reads ten bytes whole, where so many may be and a read fails: how many came.
fn count_read(alloc: Global, most: u32, fail: u32) -> Option<Result<usize, Unread>> {
    if most == u32::MAX {
        return None;
    }
    let mut input = MemorySource::new(copy(alloc, b"0123456789"), copy(alloc, &[fail]));
    match read_whole(alloc, &mut input, most) {
        Ok(read) if read.as_slice() != b"0123456789".as_slice() => None,
        Ok(read) => Some(Ok(read.len())),
        Err(unread) => Some(Err(unread)),
    }
}

// How many bytes may be, which read fails, and what comes of it.
const READS: [(u32, u32, Result<usize, Unread>); 6] = [
    (11, 0, Ok(10)),
    (10, 0, Ok(10)),
    (9, 0, Err(Unread::TooLong)),
    (0, 0, Err(Unread::TooLong)),
    (10, 1, Err(Unread::Failed)),
    (10, 2, Err(Unread::Failed)),
];

// The first case that comes out otherwise.
fn wrong_read(alloc: Global) -> Option<(u32, u32)> {
    for (most, fail, wanted) in READS {
        if count_read(alloc, most, fail) != Some(wanted) {
            return Some((most, fail));
        }
    }
    None
}

#[test]
fn an_input_is_read_whole(rt: HostRuntime) -> Result<(), AllocError> {
    assert!(rt; wrong_read(rt.alloc()).is_none());
    Ok(())
}
