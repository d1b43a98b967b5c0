ghost use Rattle.std.specs.Prelude.{◌≡◌, Some, IfOk};
ghost use Rattle.hall_devices.specs.Named.{IsBookOf};

use book_snapshot::ROW_BYTES;
use command_line::{BookUse, Command, Wants, needs_of};
use disk_core::QuietDisk;
use file_disk::{FileDisk, Notice};
use hall_limits::MAX_ROWS;
use std::alloc::{AllocError, Global};

/// The bytes that a book in memory has room for with each row: the row itself, and as many again
/// for its snapshot.
const BYTES_A_ROW: usize = 2 * ROW_BYTES;

/// The rows more that its room is for: the header, the closed gates and the ends of the snapshot.
const ROWS_MORE: usize = 4;

// The rows that a book in memory has room for: none where no book is opened.
fn room(wanted: &Wants) -> u32 {
    match needs_of(wanted.command).book {
        BookUse::Examines | BookUse::Leaves => 0,
        BookUse::Adds | BookUse::Makes | BookUse::Reads => wanted.limit,
    }
}

// A disk in memory with room for a book of so many rows and its snapshot.
fn memory_disk(alloc: Global, limit: u32) -> Result<QuietDisk, AllocError> {
    let rows = limit.min(MAX_ROWS) as usize + ROWS_MORE;
    Ok(QuietDisk::new(Vec::with_capacity(alloc, BYTES_A_ROW * rows)?))
}

// Whether a command has a book that it adds nothing to.
fn reads_alone(command: Command) -> bool {
    match needs_of(command).book {
        BookUse::Reads | BookUse::Examines => true,
        BookUse::Adds | BookUse::Makes | BookUse::Leaves => false,
    }
}

// The file of a book. Standard error says why it can't be opened, and how it was opened where it
// isn't simply there; that one was made is said at a terminal.
fn open_book(
    rt: HostRuntime,
    command: Command,
    path: &str,
    at_terminal: bool,
) -> FileDisk<HostRuntime>
    ensures { IsBookOf (Some path.now) result }
{
    let disk = if reads_alone(command) {
        FileDisk::open_to_read(rt, path)
    } else {
        FileDisk::open(rt, path)
    };
    if let Some(error) = disk.open_error() {
        let _ = eprintln!(rt; "hall: can't open {path}: {error}");
    }
    if let Some(notice) = disk.notice() {
        if at_terminal || notice != Notice::Made {
            let _ = eprintln!(rt; "hall: {path}: {notice}");
        }
    }
    disk
}

// Whether there was no memory to open the file of a book.
fn lacks_memory(disk: &FileDisk<HostRuntime>) -> bool {
    match disk.open_error() {
        Some(error) => error.lacks_memory(),
        None => false,
    }
}

// A disk that tells how many rows are left while lanes and doors are at work at once.
fn with_rows_left(disk: FileDisk<HostRuntime>, wanted: &Wants) -> FileDisk<HostRuntime>
    ensures { result ≡ disk }
{
    let mut disk = disk;
    if wanted.command == Command::Serve {
        disk.tell_rows_left(wanted.limit);
    }
    disk
}

/// The disk that the words ask for: the file of the book, or one in memory. Standard error says why
/// the file can't be opened, which makes a disk that fails, and how it was opened where it isn't
/// simply there; and that a command which adds nothing has no book.
///
/// # Errors
///
/// `AllocError` where there is no memory to open it.
pub fn open_disk(
    rt: HostRuntime,
    wanted: &Wants,
    at_terminal: bool,
) -> Result<FileDisk<HostRuntime>, AllocError>
    ensures named { IfOk result (λ disk. IsBookOf wanted.now.book disk) }
{
    let Some(path) = &wanted.book else {
        if reads_alone(wanted.command) {
            let _ = eprintln!(rt; "hall: without --book this is of an empty book");
        }
        let disk = memory_disk(rt.alloc(), room(wanted))?;
        return Ok(with_rows_left(FileDisk::in_memory(rt, disk), wanted));
    };
    let disk = open_book(rt, wanted.command, path.as_str(), at_terminal);
    if lacks_memory(&disk) {
        return Err(AllocError);
    }
    Ok(with_rows_left(disk, wanted))
}
