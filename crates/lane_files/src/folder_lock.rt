use file_disk::above_streams;
use std::alloc::Global;
use std::fs::{File, TryLockError};
use std::io;
use std::io::{Eprint, ErrorKind};
use std::rt::Files;

/// The lock of a folder of cells and gates. As long as it is there no other hall gets it.
#[derive(Drop)]
pub struct FolderLock(Option<File>);

impl FolderLock {
    /// The lock of no folder, for a hall without lanes.
    pub fn none() -> Self {
        FolderLock(None)
    }
}

/// Locks a folder of cells and gates. None where another hall has the lock, which standard error is
/// told. A folder that isn't there, or that the system doesn't lock, keeps nobody out.
pub fn lock_folder<R: Files<File = File> + Eprint>(
    alloc: Global,
    rt: &R,
    folder: &str,
) -> Option<FolderLock> {
    let Ok(file) = open_folder(alloc, rt, folder) else {
        return Some(FolderLock::none());
    };
    match file.try_lock() {
        Err(TryLockError::WouldBlock) => {
            let _ = eprintln!(rt;
                "hall: can't open {folder}: another hall has its cells and gates"
            );
            None
        }
        _ => Some(FolderLock(Some(file))),
    }
}

// Opens a folder, and nothing else: a named pipe would wait.
fn open_folder<R: Files<File = File>>(alloc: Global, rt: &R, folder: &str) -> io::Result<File> {
    let Ok(path) = format!(in alloc; "{folder}/.") else {
        return Err(ErrorKind::OutOfMemory.into());
    };
    above_streams(File::open(rt, path.as_str())?)
}
