use book_core::Rows;
use call_endings::Ending;
use job_reports::DoorEnds;
use script_run::{LaneEnds, LaneLog};

/// What a command other than `serve` leaves before its last text.
#[derive(Drop)]
pub struct Outcome<D> {
    /// How it ended.
    pub ending: Ending,
    /// The disk.
    pub disk: D,
    /// How many rows the disk held when it was opened as a book; 0 where it wasn't.
    pub held: u32,
    /// The rows of the book; none where the disk wasn't opened as one.
    pub rows: Rows,
    /// What is told of lanes.
    pub log: LaneLog,
}

/// What a call of the program leaves.
#[derive(Drop)]
pub struct Ended<D, L, O> {
    /// The status with which the program ends.
    pub status: u8,
    /// The disk.
    pub disk: D,
    /// How many rows the disk held when it was opened as a book; 0 where it wasn't.
    pub held: u32,
    /// The rows of the book; none where the disk wasn't opened as one.
    pub rows: Rows,
    /// The lanes that were handed in.
    pub lanes: Vec<L>,
    /// How each work of a lane ended: of `run` in the order of the lines that set them to work, of
    /// `serve` in the order of the lanes, each once or none.
    pub lane_ends: LaneEnds,
    /// The doors that were handed in.
    pub doors: Vec<O>,
    /// How each door ended, in their order, where `serve` served them.
    pub door_ends: DoorEnds,
}
