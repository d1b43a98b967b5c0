use disk_core::ListDoor;
use lane_worker::Cell;
use memory_hall::{CellItem, copy};
use remote_cell::RemoteCell;
use std::alloc::Global;

/// A cell over a door in memory.
pub(crate) type TestCell = RemoteCell<ListDoor>;

/// A cell that takes no batches, to whose door connections with these bytes come, of which these
/// calls fail.
pub(crate) fn cell_of(alloc: Global, connections: &[&[u8]], fails: &[u32]) -> TestCell {
    any_cell_of(alloc, connections, fails, false)
}

/// Such a cell, which takes batches or does not.
pub(crate) fn any_cell_of(
    alloc: Global,
    connections: &[&[u8]],
    fails: &[u32],
    batches: bool,
) -> TestCell {
    let mut all = Vec::new(alloc);
    for bytes in connections {
        let _ = all.push(copy(alloc, bytes));
    }
    RemoteCell::new(ListDoor::new(alloc, all, copy(alloc, fails)), batches)
}

/// Whether a cell gives these items next, one after another.
pub(crate) fn gives(cell: &mut TestCell, items: &[CellItem]) -> bool {
    for item in items {
        if cell.next() != Ok(item.next()) {
            return false;
        }
    }
    true
}

/// Whether these bytes were written to the connections that a door served, one after another.
pub(crate) fn was_written(door: &ListDoor, written: &[&[u8]]) -> bool {
    for (place, bytes) in written.iter().enumerate() {
        if door.written(place) != Some(*bytes) {
            return false;
        }
    }
    door.written(written.len()).is_none()
}
