use crate::copies::{read_running, read_still};
use crate::open_error::OpenError;
use crate::room::counted;
use crate::slots_check::first_difference;
use crate::transfer::settle;
use book_file::{has_header, is_unbegun};
use book_journal::NEW_BYTES;
use std::fs::{File, OpenOptions, canonicalize, symlink_metadata};
use std::io;
use std::io::ErrorKind;
use std::os::fd::AsRawFd;
use std::rt::Files;

// The descriptors up to this one are the standard streams.
const LAST_STREAM: i32 = 2;

/// Opens the file of a book for reading and writing, and locks it for as long as it is open. It is
/// a book, or nothing yet. No file is made or truncated.
pub(crate) fn open_present<R: Files<File = File> + AllocGlobal>(
    rt: &R,
    path: &str,
) -> Result<File, OpenError> {
    let file = OpenOptions::new().read(true).write(true).open(rt, path)?;
    lock_book(rt, path, file)
}

/// Makes the file of a new book where none is.
pub(crate) fn make<R: Files<File = File> + AllocGlobal>(
    rt: &R,
    path: &str,
) -> Result<File, OpenError> {
    if symlink_metadata(rt, path).is_ok() {
        return Err(OpenError::LeadsNowhere);
    }
    let file = File::create_new(rt, path)?;
    lock_book(rt, path, file)
}

/// A file that is to be written: none whose slots hold other rows than the snapshot beside them,
/// since the next row would throw the snapshot away. The room that a killed run left is taken off.
pub(crate) fn to_be_written(file: File) -> Result<File, OpenError> {
    let size = file.metadata()?.len();
    if let Some(row) = first_difference(&file, size)? {
        return Err(OpenError::Differs { row });
    }
    let length = counted(&file, size)?;
    if length < size {
        file.set_len(length)?;
        settle(&file)?;
    }
    Ok(file)
}

// Locks a file that is a book, or nothing yet. What a killed run wrote and didn't sync is stable
// before anything is read.
fn lock_book<R: Files<File = File> + AllocGlobal>(
    rt: &R,
    path: &str,
    file: File,
) -> Result<File, OpenError> {
    let file = above_streams(file)?;
    let found = file.metadata()?;
    if !found.is_file() {
        return Err(OpenError::NotAFile);
    }
    file.try_lock()?;
    if found.len() <= NEW_BYTES as u64 {
        let bytes = read_still(rt.alloc(), &file, found.len())?;
        check_begun(&bytes)?;
    }
    // An empty file may have been made by a run that ended before its folder was synced.
    if found.len() == 0 {
        sync_folder(rt, path)?;
    }
    settle(&file)?;
    Ok(file)
}

/// A short file is a book without rows, or the beginning of one.
pub(crate) fn check_begun(bytes: &[u8]) -> Result<(), OpenError> {
    if has_header(bytes) || is_unbegun(bytes) {
        Ok(())
    } else {
        Err(OpenError::NotABook)
    }
}

/// The same file under a descriptor above those of the standard streams: what is meant for one that
/// was closed doesn't land in it.
pub fn above_streams(file: File) -> io::Result<File> {
    if file.as_raw_fd() > LAST_STREAM {
        Ok(file)
    } else {
        file.try_clone()
    }
}

// Makes the file's entry in its folder stable. A link leads to the folder of the file itself.
fn sync_folder<R: Files<File = File> + AllocGlobal>(rt: &R, path: &str) -> io::Result<()> {
    let mut folder = canonicalize(rt, path)?;
    folder.pop();
    File::open(rt, folder.as_str())?.sync_all()
}
