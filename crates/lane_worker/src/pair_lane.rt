use crate::cell::Cell;
use crate::gate::Gate;
use crate::lane::Lane;
use crate::types::CellNext;
use book_words::Caller;
use disk_core::Failed;

/// A lane of any cell and any gate. It fails as they do.
#[derive(Drop)]
pub struct PairLane<C, G> {
    pub cell: C,
    pub gate: G,
}

impl<C, G> PairLane<C, G> {
    ghost use Rattle.std.specs.Prelude.{◌≡◌};

    /// The lane of this cell and this gate.
    pub fn new(cell: C, gate: G) -> Self
        ensures { result ≡ record { cell = cell; gate = gate } }
    {
        PairLane { cell, gate }
    }
}

impl<C: Cell, G> Cell for PairLane<C, G> {
    ghost use Rattle.std.specs.Prelude.{◌≡◌};

    ghost feed = { λ lane. C.feed lane.cell };

    ghost faults = { λ lane. C.faults lane.cell };

    ghost keeps_rest = { λ old new. new.gate ≡ old.gate };

    fn next(&mut self) -> Result<CellNext, Failed> {
        self.cell.next()
    }

    fn expect_batches(&mut self) {
        self.cell.expect_batches();
    }
}

impl<C, G: Gate> Gate for PairLane<C, G> {
    ghost use Rattle.std.specs.Prelude.{◌≡◌};

    ghost opened = { λ lane. G.opened lane.gate };

    ghost faults = { λ lane. G.faults lane.gate };

    ghost keeps_rest = { λ old new. new.cell ≡ old.cell };

    fn lift<K: Caller>(&mut self, caller: &K, pack: u32) -> Result<(), Failed> {
        self.gate.lift(caller, pack)
    }
}

impl<C: Cell, G: Gate> Lane for PairLane<C, G> {
    ghost use Rattle.std.specs.Prelude.{◌≡◌};
    ghost use Rattle.std.proofs.Common.{ap};

    ghost cell_leaves_gate = { λ old new same. (ap G.opened same, ap G.faults same) };

    ghost gate_leaves_cell = { λ old new same. (ap C.feed same, ap C.faults same) };
}
