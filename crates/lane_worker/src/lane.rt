ghost use Rattle.std.specs.Prelude.{◌≡◌};

use crate::cell::Cell;
use crate::gate::Gate;

/// A place where packs pass a cell and then a gate.
pub trait Lane: Cell + Gate {
    /// The cell leaves the packs for which the gate opened, and how often the gate failed.
    ghost cell_leaves_gate: { (old new : Self) → Self.Cell.keeps_rest old new
        → (Self.opened new ≡ Self.opened old) × (Self.Gate.faults new ≡ Self.Gate.faults old) };

    /// The gate leaves what the cell has left and gave, and how often the cell failed.
    ghost gate_leaves_cell: { (old new : Self) → Self.Gate.keeps_rest old new
        → (Self.feed new ≡ Self.feed old) × (Self.Cell.faults new ≡ Self.Cell.faults old) };
}
