ghost use Rattle.std.specs.Prelude.{◌≤◌, length};

use book_words::Entry;
use disk_core::{Keep, ListDoor, MemoryDisk, MemorySink, QuietSource};
use hall_limits::{MAX_DOOR, MAX_LANE};
use hall_top::{Ended, NoNotices, hall, hall_alone};
use memory_hall::{CellItem, MemoryLane, copy, disk_of, doors_of, lanes_of, words_of};
use std::alloc::Global;
use std::sync::Wait;
use std::thread::Threads;

/// What a call leaves of a hall in memory.
pub type MemoryEnd = Ended<MemoryDisk, MemoryLane, ListDoor>;

/// What a command without lanes and doors leaves of it, and what it printed.
#[derive(Drop)]
pub struct Asked {
    pub status: u8,
    pub disk: MemoryDisk,
    pub held: u32,
    pub rows: Vec<Entry>,
    pub output: MemorySink,
}

/// How many rows the disk of the setup has.
pub const SETUP_ROWS: usize = 5;

/// How many calls mounting that disk makes, by its snapshot.
pub const MOUNT_CALLS: u32 = 8;

// The script of these rows.
const SETUP: &[u8] = b"day 2025-03-03\nproduct rice250 250\ntare rice250 2025-03-03 10\n\
open A rice250\nstart 1 A\n";

// The plan of the hall: a row, and then the work of a lane.
const PLAN: &[u8] = b"setup = \"day 2025-03-04\\n\"\n[[lane]]\nnumber = 1\nbatch = \"A\"\n";

// The acts of the desk, each twice.
const ACTS: [&[u8]; 6] = [ACT_B, ACT_B, ACT_C, ACT_C, ACT_D, ACT_D];

const ACT_B: &[u8] = b"POST /acts HTTP/1.1\r\nContent-Length: 68\r\n\r\n\
{\"act\":\"product\",\"desk\":101,\"request\":1,\"name\":\"b\",\"nominal\":250000}";

const ACT_C: &[u8] = b"POST /acts HTTP/1.1\r\nContent-Length: 68\r\n\r\n\
{\"act\":\"product\",\"desk\":101,\"request\":2,\"name\":\"c\",\"nominal\":250000}";

const ACT_D: &[u8] = b"POST /acts HTTP/1.1\r\nContent-Length: 68\r\n\r\n\
{\"act\":\"product\",\"desk\":101,\"request\":3,\"name\":\"d\",\"nominal\":250000}";

// A door to one connection, on which the desk asks its acts.
fn doors(alloc: Global) -> Vec<ListDoor> {
    let mut sent = Vec::new(alloc);
    for act in &ACTS {
        let _ = sent.extend_from_slice(act);
    }
    doors_of(alloc, &[&[sent.as_slice()]], &[])
}

/// Serves the plan over a disk, with a lane whose cell gives one weight, and with the door.
pub fn serve<R: Threads + Wait + Sync>(rt: &R, alloc: Global, disk: MemoryDisk) -> MemoryEnd {
    let words = words_of(alloc, &["serve"]);
    let mut input = QuietSource::new(copy(alloc, PLAN));
    let mut output = MemorySink::new(alloc, Vec::new(alloc));
    let mut lanes = lanes_of(alloc, &[&[CellItem::Gross(260_000)]], &[], &[]);
    lanes.truncate(usize::from(MAX_LANE));
    let mut doors = doors(alloc);
    doors.truncate(usize::from(MAX_DOOR));
    hall(
        rt,
        alloc,
        &words,
        &mut input,
        &mut output,
        &mut NoNotices,
        disk,
        lanes,
        doors,
    )
}

/// Does a command over a disk, and tells what is left and what is printed.
pub fn ask(alloc: Global, command: &str, script: &[u8], disk: MemoryDisk) -> Asked {
    let words = words_of(alloc, &[command]);
    let mut input = QuietSource::new(copy(alloc, script));
    let mut output = MemorySink::new(alloc, Vec::new(alloc));
    let lanes: Vec<MemoryLane> = Vec::new(alloc);
    let doors: Vec<ListDoor> = Vec::new(alloc);
    let end = hall_alone(alloc, &words, &mut input, &mut output, disk, lanes, doors);
    let rows = copy(alloc, end.rows.as_slice());
    Asked {
        status: end.status,
        disk: end.disk,
        held: end.held,
        rows,
        output,
    }
}

// The bytes of the disk of the setup; none where it came out otherwise.
fn bytes_set(asked: &Asked) -> &[u8] {
    if (asked.status, asked.rows.as_slice().len()) == (0, SETUP_ROWS) {
        asked.disk.bytes()
    } else {
        &[]
    }
}

/// The disk of the setup; an empty one where it came out otherwise.
pub fn set_up(alloc: Global) -> Vec<u8> {
    let asked = ask(alloc, "run", SETUP, disk_of(alloc, &[], &[]));
    copy(alloc, bytes_set(&asked))
}

/// How many calls a disk was asked.
pub fn calls_of(disk: &MemoryDisk) -> u32
    ensures { result ≤ length disk.now.calls }
{
    disk.calls_made().min(u32::MAX as usize) as u32
}

/// What a crash behind its last call leaves of a disk, where there is memory for it.
pub fn crashed(disk: &MemoryDisk, keep: Keep) -> Option<Vec<u8>> {
    disk.crash(calls_of(disk), keep).ok()
}

/// What a crash may leave of the bytes that were written since the last sync; ways that often leave
/// the same stand side by side. The disk reads as what was written.
pub const KEEPS: [Keep; 4] = [Keep::Earlier, Keep::Fill(0), Keep::Written, Keep::Fill(1)];
