//! A book that isn't written: its bytes in memory, of a file that is opened for reading alone.
use crate::copies::{read_running, read_still};
use crate::notice::Notice;
use crate::open_error::OpenError;
use crate::opening::{above_streams, check_begun};
use book_file::has_header;
use book_journal::{NEW_BYTES, ROW_BYTES};
use disk_core::QuietDisk;
use std::fs::{File, TryLockError};
use std::rt::Files;

/// A disk in memory, and what whoever asked for it should be told.
#[derive(Drop)]
pub(crate) struct BookCopy {
    pub(crate) disk: QuietDisk,
    pub(crate) notice: Notice,
}

/// What a file holds, which another hall has open or that can't be written. Of a hall that runs the
/// rows that stay are taken.
pub(crate) fn copy_book<R: Files<File = File> + AllocGlobal>(
    rt: &R,
    path: &str,
) -> Result<BookCopy, OpenError> {
    let file = above_streams(File::open(rt, path)?)?;
    let found = file.metadata()?;
    if !found.is_file() {
        return Err(OpenError::NotAFile);
    }
    match file.try_lock_shared() {
        Ok(()) => copied(
            read_still(rt.alloc(), &file, found.len())?,
            Notice::Unwritable,
        ),
        Err(TryLockError::WouldBlock) => {
            let bytes = read_running(rt.alloc(), &file, found.len())?;
            let rows = rows_in(&bytes);
            copied(bytes, Notice::InUse { rows })
        }
        Err(error) => Err(error.into()),
    }
}

// How many rows were read of a running book.
fn rows_in(bytes: &[u8]) -> u64 {
    if has_header(bytes) {
        bytes.len() as u64 / ROW_BYTES as u64 - 1
    } else {
        0
    }
}

// The disk of bytes that are a book, or the beginning of one.
fn copied(bytes: Vec<u8>, notice: Notice) -> Result<BookCopy, OpenError> {
    if bytes.len() <= NEW_BYTES {
        check_begun(&bytes)?;
    }
    Ok(BookCopy {
        disk: QuietDisk::new(bytes),
        notice,
    })
}
