use crate::halls::open_hall;
use book_words::{Act, Name, Prior};
use lane_worker::{Cell, CellNext, LaneEnd, LaneStop, run_lane};
use memory_hall::CellItem::{Batch, Gross};
use memory_hall::{MemoryCaller, MemoryLane, lane_of};
use std::alloc::Global;
use std::test::Fail;

// What the row of a number says of the gate, if it stops lane 1.
fn stopped(hall: &MemoryCaller, number: u32) -> Option<Prior> {
    match hall.store().entry(number)?.act {
        Act::StopLane { lane: 1, prior } => Some(prior),
        _ => None,
    }
}

// How a lane ends whose cell names a batch behind two packs, with what the stop says of the gate, and
// the item that comes next.
fn end_of(
    hall: &mut MemoryCaller,
    lane: &mut MemoryLane,
) -> Option<(LaneEnd, Option<Prior>, Option<CellNext>)> {
    let batch = Name::new(b"A".as_slice())?;
    let end = run_lane(hall, lane, 1, batch);
    let last = stopped(hall, hall.store().len());
    Some((end, last, lane.cell.next().ok()))
}

// A batch that the cell names ends the work as its end does: nothing is voided, and what follows the
// batch is left to whoever asks next. The lane has then no batch.
#[test]
fn a_batch_ends_a_work(rt: HostRuntime) -> Result<(), Fail> {
    let alloc = rt.alloc();
    let items = [
        Gross(240_000),
        Gross(260_000),
        Batch(b"B", 3),
        Gross(261_000),
    ];
    let mut lane = lane_of(alloc, &items, &[], &[]);
    let mut hall = open_hall(alloc, &[]);
    let seen = match &mut hall {
        Some(hall) => end_of(hall, &mut lane),
        None => None,
    };
    let stop = Name::new(b"B".as_slice()).map(|batch| LaneStop::Change { batch, line: 3 });
    let wanted = stop.map(|stop| {
        (
            LaneEnd { opened: 1, stop },
            Some(Prior::Opened),
            Some(CellNext::Gross(261_000)),
        )
    });
    assert!(rt; seen.is_some() && seen == wanted);
    if let Some(hall) = hall {
        let _ = hall.back().close();
    }
    Ok(())
}
