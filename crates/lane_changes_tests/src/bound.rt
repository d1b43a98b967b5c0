use crate::halls::Silent;
use disk_core::Failed;
use lane_changes::{MAX_STINTS, run_changes};
use lane_worker::{Cell, CellNext, LaneEnd, LaneStop, ListGate, PairLane};
use memory_hall::{copy, open_book};
use std::alloc::Global;
use std::test::Fail;

// A cell that gives weights without an end, and counts them.
#[derive(Drop)]
struct Endless {
    given: u32,
    expects: bool,
}

impl Cell for Endless {
    ghost use Rattle.std.specs.Prelude.{None};
    ghost use Rattle.device_facts.specs.Frame.{NothingElse};
    ghost use Rattle.lane_worker.specs.Cells.{told_left};

    ghost feed = { λ _. told_left None };

    ghost faults = { λ _. 0 };

    ghost keeps_rest = { NothingElse };

    fn next(&mut self) -> Result<CellNext, Failed> {
        self.given = self.given.saturating_add(1);
        Ok(CellNext::Gross(260_000))
    }

    fn expect_batches(&mut self) {
        self.expects = self.given == 0;
    }
}

// How a lane ends that waits without an end, after how many weights, and whether its cell was told
// before the first of them that it changes.
fn end_of(alloc: Global) -> Option<(LaneEnd, u32, bool)> {
    let mut hall = open_book(alloc, &[], 4, 1)?;
    let cell = Endless {
        given: 0,
        expects: false,
    };
    let mut lane = PairLane::new(cell, ListGate::new(alloc, copy(alloc, &[])));
    let end = run_changes(&mut hall, &mut lane, 1, &Silent);
    let _ = hall.back().close();
    Some((end, lane.cell.given, lane.cell.expects))
}

#[test]
fn a_million_waits(rt: HostRuntime) -> Result<(), Fail> {
    let end = LaneEnd {
        opened: 0,
        stop: LaneStop::Turns,
    };
    assert_eq!(rt; MAX_STINTS, 1_000_000);
    assert!(rt; end_of(rt.alloc()) == Some((end, 1_000_000, true)));
    Ok(())
}
