use disk_core::{ListDoor, MemoryDisk, MemorySink, QuietSource};
use hall_limits::{MAX_DOOR, MAX_LANE};
use hall_top::{Ended, NoNotices, hall};
use memory_hall::{CellItem, MemoryLane, copy, disk_of, doors_of, lanes_of, words_of};
use std::alloc::Global;
use std::sync::Wait;
use std::thread::Threads;

/// What a call leaves of a hall in memory.
pub type MemoryEnd = Ended<MemoryDisk, MemoryLane, ListDoor>;

/// A plan of one lane.
pub const ONE_LANE: &str = "\
setup = \"\"\"
day 2025-03-03
product rice250 250
tare rice250 2025-03-03 10
open A rice250
\"\"\"
reserve = 1000

[[lane]]
number = 1
batch = \"A\"
";

/// A request for the summary.
pub const SUMMARY: &[u8] = b"GET /summary HTTP/1.1\r\n\r\n";

/// A serve: what is handed in, and what comes of it.
#[derive(Clone, Copy)]
pub struct Case {
    pub plan: &'static str,
    /// What the cell of each lane gives.
    pub cells: &'static [&'static [CellItem]],
    /// The calls of each cell that fail.
    pub cell_fails: &'static [u32],
    /// The calls of each gate that fail.
    pub gate_fails: &'static [u32],
    /// What the connections of each door send.
    pub doors: &'static [&'static [&'static [u8]]],
    /// The calls of each door that fail.
    pub door_fails: &'static [u32],
    /// The calls of the output that fail.
    pub output_fails: &'static [u32],
    /// What is printed.
    pub printed: &'static str,
    pub status: u8,
    /// How many rows are left.
    pub rows: usize,
}

/// A case in which nothing fails, to be filled.
pub const CALM: Case = Case {
    plan: "",
    cells: &[],
    cell_fails: &[],
    gate_fails: &[],
    doors: &[],
    door_fails: &[],
    output_fails: &[],
    printed: "",
    status: 0,
    rows: 0,
};

// Does what these words say.
fn call<R: Threads + Wait + Sync>(
    rt: &R,
    alloc: Global,
    words: &[String],
    case: &Case,
    output: &mut MemorySink,
) -> MemoryEnd {
    let mut input = QuietSource::new(copy(alloc, case.plan.as_bytes()));
    let mut lanes = lanes_of(alloc, case.cells, case.cell_fails, case.gate_fails);
    lanes.truncate(usize::from(MAX_LANE));
    let mut doors = doors_of(alloc, case.doors, case.door_fails);
    doors.truncate(usize::from(MAX_DOOR));
    let disk = disk_of(alloc, &[], &[]);
    hall(
        rt,
        alloc,
        words,
        &mut input,
        output,
        &mut NoNotices,
        disk,
        lanes,
        doors,
    )
}

/// Does what a word says over an empty disk, with the plan, the lanes and the doors of a case.
pub fn play<R: Threads + Wait + Sync>(
    rt: &R,
    alloc: Global,
    asked: &str,
    case: &Case,
    output: &mut MemorySink,
) -> MemoryEnd {
    let words = words_of(alloc, &[asked]);
    call(rt, alloc, &words, case, output)
}

/// An output, of which the calls of a case fail.
pub fn output_of(alloc: Global, case: &Case) -> MemorySink {
    MemorySink::new(alloc, copy(alloc, case.output_fails))
}

/// Whether a case ended so, with what was printed, and its lanes and doors were handed back.
pub fn ends_so(ended: &MemoryEnd, printed: &[u8], case: &Case) -> bool {
    let found = (
        printed,
        ended.status,
        ended.rows.as_slice().len(),
        ended.lanes.len(),
        ended.doors.len(),
    );
    found
        == (
            case.printed.as_bytes(),
            case.status,
            case.rows,
            case.cells.len(),
            case.doors.len(),
        )
}
