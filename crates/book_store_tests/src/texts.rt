use book_mount::MountError;
use book_store::{AdoptError, RestError};
use std::alloc::Global;
use std::fmt::Display;
use std::test::Fail;

// Whether a user reads this of an error.
fn reads(alloc: Global, why: &impl Display, wanted: &str) -> bool {
    match format!(in alloc; "{why}") {
        Ok(text) => text.as_str() == wanted,
        Err(_) => false,
    }
}

// Where a disk isn't opened as a book.
fn are_told(alloc: Global) -> bool {
    reads(
        alloc,
        &MountError::NotJournal { place: 7 },
        "not a journal at 7",
    ) && reads(
        alloc,
        &MountError::Damaged { row: 1_000_000 },
        "damaged row 1000000",
    ) && reads(alloc, &MountError::DiskFault, "the disk failed")
        && reads(alloc, &MountError::NoMemory, "no memory")
}

// Where an entry of another book isn't taken, or no snapshot is kept.
fn are_said(alloc: Global) -> bool {
    reads(alloc, &AdoptError::Unlawful, "the entry isn't lawful here")
        && reads(alloc, &AdoptError::DiskFault, "the disk failed")
        && reads(alloc, &AdoptError::NoMemory, "no memory")
        && reads(alloc, &RestError::DiskFault, "the disk failed")
        && reads(alloc, &RestError::NoMemory, "no memory")
}

#[test]
fn texts_of_errors(rt: HostRuntime) -> Result<(), Fail> {
    assert!(rt; are_told(rt.alloc()) && are_said(rt.alloc()));
    Ok(())
}
