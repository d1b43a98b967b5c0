use book_words::Name;
use memory_hall::{CellItem, lane_of, open_book};
use script_events::{Worked, work_lane};
use std::alloc::Global;

/// Works lane 1 for batch A with one weight, on a disk of which these calls fail: what comes of it,
/// and how many rows the book then has.
pub(crate) fn work(alloc: Global, fails: &[u32], gross: i64) -> Option<(Worked, u32)> {
    let mut lane = lane_of(alloc, &[CellItem::Gross(gross)], &[], &[]);
    let batch = Name::new(b"A".as_slice())?;
    let mut hall = open_book(alloc, fails, 5, 1)?;
    if hall.faults() != 0 {
        return None;
    }
    let worked = work_lane(&mut hall, &mut lane, 1, batch);
    let rows = hall.store().len();
    let _ = hall.back().close();
    Some((worked, rows))
}
