//! The devices of the program as the words of the command line ask for them: standard input has lines,
//! records or a plan, the disk of the book is a file or memory, each cell of a lane reads a file of
//! the lanes' folder or hears its scale at a port, each gate is a file of the folder, and each door
//! listens at a port.
//!
//! Promised: there are as many lanes and doors as the words ask for, each at most 16; a disk that is
//! open is asked for by the path that the words have, or is memory without one, each lane by its files
//! or its port, each door by its port. What disks, cells, gates and doors do is promised by the crates
//! that they stand in.
#![tactic(auto)]

mod disk;
mod doors;
mod lanes;
mod port_cell;
mod scale_door;
mod scale_lines;
mod unopened;
mod waiting;

pub use disk::open_disk;
pub use doors::open_doors;
pub use lanes::{HallLane, find_stop, lock_cells, open_lanes};
pub use port_cell::PortCell;
pub use scale_door::ScaleDoor;
pub use unopened::Unopened;
pub use waiting::Waiting;
