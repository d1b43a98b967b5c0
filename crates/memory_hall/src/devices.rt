//! Calls that fail are counted from 1, of each device by itself.
use crate::items::CellItem;
use crate::lists::copy;
use disk_core::{ListDoor, MemoryDisk};
use lane_worker::{ListCell, ListGate, PairLane};
use std::alloc::Global;

/// A lane in memory.
pub type MemoryLane = PairLane<ListCell, ListGate>;

/// A lane whose cell gives these items, where these calls of the cell and these of the gate fail.
pub fn lane_of(
    alloc: Global,
    items: &[CellItem],
    cell_fails: &[u32],
    gate_fails: &[u32],
) -> MemoryLane {
    let mut given = Vec::new(alloc);
    for item in items {
        let _ = given.push(item.next());
    }
    let cell = ListCell::new(given, copy(alloc, cell_fails));
    let gate = ListGate::new(alloc, copy(alloc, gate_fails));
    PairLane::new(cell, gate)
}

/// Such a lane for each of these lists of items.
pub fn lanes_of(
    alloc: Global,
    cells: &[&[CellItem]],
    cell_fails: &[u32],
    gate_fails: &[u32],
) -> Vec<MemoryLane> {
    let mut lanes = Vec::new(alloc);
    for items in cells {
        let _ = lanes.push(lane_of(alloc, items, cell_fails, gate_fails));
    }
    lanes
}

/// A door to connections that send these bytes, of which these calls fail.
pub fn door_of(alloc: Global, sent: &[&[u8]], fails: &[u32]) -> ListDoor {
    let mut connections = Vec::new(alloc);
    for bytes in sent {
        let _ = connections.push(copy(alloc, bytes));
    }
    ListDoor::new(alloc, connections, copy(alloc, fails))
}

/// Such a door for each of these lists of connections.
pub fn doors_of(alloc: Global, doors: &[&[&[u8]]], fails: &[u32]) -> Vec<ListDoor> {
    let mut all = Vec::new(alloc);
    for sent in doors {
        let _ = all.push(door_of(alloc, sent, fails));
    }
    all
}

/// A disk of these bytes, of which these calls fail.
pub fn disk_of(alloc: Global, bytes: &[u8], fails: &[u32]) -> MemoryDisk {
    MemoryDisk::new(alloc, copy(alloc, bytes), copy(alloc, fails))
}
