use disk_core::ListDoor;
use memory_hall::{MemoryCaller, open_book};
use office_door::{DoorEnd, serve_door};
use std::alloc::Global;

// The number that the entries of the first door bear.
const FIRST_DOOR: u16 = 17;

/// How many calls of the disk are made before a door is served: mounting makes four, and a row
/// four.
pub(crate) const CALLS: u32 = 8;

/// A book without a row, on a disk of which these calls fail. Door 1 speaks.
pub(crate) fn empty_hall(alloc: Global, fails: &[u32]) -> Option<MemoryCaller> {
    open_book(alloc, fails, 0, FIRST_DOOR)
}

/// The same with the row of a day.
pub(crate) fn open_hall(alloc: Global, fails: &[u32]) -> Option<MemoryCaller> {
    open_book(alloc, fails, 1, FIRST_DOOR)
}

/// Serves a door, and lets the hall go; how the door came to its end, how many rows the book then
/// has, and how many faults of the disk the caller was answered.
pub(crate) fn serve(
    alloc: Global,
    mut hall: MemoryCaller,
    door: &mut ListDoor,
) -> (DoorEnd, u32, u64) {
    let end = serve_door(alloc, &mut hall, door);
    let faults = hall.faults();
    let store = hall.back();
    let rows = store.len();
    let _ = store.close();
    (end, rows, faults)
}
