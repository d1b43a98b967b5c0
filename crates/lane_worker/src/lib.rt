//! The worker of a lane: it asks the book about each weight that a scale gives, and never opens the
//! gate before the book has the row. The scale is a cell, and it and the gate are a lane.
#![tactic(auto)]

mod asking;
mod cell;
mod cell_lines;
mod either_cell;
mod ending;
mod gate;
mod gate_lines;
mod held_lines;
mod lane;
mod line_cell;
mod line_gate;
mod list_cell;
mod list_gate;
mod pair_lane;
mod progress;
mod starting;
mod types;
mod weighing;
mod worker;

pub use cell::Cell;
pub use cell_lines::{MAX_CELL_LINE, batch_said};
pub use either_cell::EitherCell;
pub use ending::{LaneEnd, LaneStop, WeighingEnd};
pub use gate::Gate;
pub use lane::Lane;
pub use line_cell::LineCell;
pub use line_gate::LineGate;
pub use list_cell::ListCell;
pub use list_gate::ListGate;
pub use pair_lane::PairLane;
pub use types::CellNext;
pub use worker::run_lane;
