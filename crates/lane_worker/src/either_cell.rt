use crate::cell::Cell;
use crate::types::CellNext;
use disk_core::Failed;

/// A cell of one kind or of another, so that lanes of both are of one type. It gives, tells and
/// fails as the cell that it is does.
#[derive(Drop)]
pub enum EitherCell<A, B> {
    One(A),
    Other(B),
}

impl<A: Cell, B: Cell> Cell for EitherCell<A, B> {
    ghost use Rattle.device_facts.specs.Frame.{NothingElse};
    ghost use Rattle.lane_worker.specs.Cells.{either_cell};

    ghost feed = { either_cell A.feed B.feed };

    ghost faults = { either_cell A.faults B.faults };

    ghost keeps_rest = { NothingElse };

    fn next(&mut self) -> Result<CellNext, Failed> {
        match self {
            EitherCell::One(cell) => cell.next(),
            EitherCell::Other(cell) => cell.next(),
        }
    }

    fn expect_batches(&mut self) {
        match self {
            EitherCell::One(cell) => cell.expect_batches(),
            EitherCell::Other(cell) => cell.expect_batches(),
        }
    }
}
