ghost use Rattle.std.specs.Prelude.{◌≡◌, false};

use disk_core::{MemoryDisk, MemorySink, QuietSource, Sink, Source};
use hall_alone::{Ended, hall_alone};
use hall_limits::MAX_LANE;
use memory_hall::{MemoryLane, copy, words_of};
use std::alloc::Global;

/// A door; none is handed in.
pub type NoDoor = u8;

/// What a run leaves.
pub type MemoryEnd = Ended<MemoryDisk, MemoryLane, NoDoor>;

/// The call that fails, counted from 1; none at 0.
pub fn only(alloc: Global, call: u32) -> Vec<u32> {
    copy(alloc, &[call])
}

/// Does what the words say over a disk, with these lanes.
pub fn run<S: Source, K: Sink>(
    alloc: Global,
    words: &[&str],
    input: &mut S,
    output: &mut K,
    disk: MemoryDisk,
    lanes: Vec<MemoryLane>,
) -> MemoryEnd
    requires { S.ended input.old ≡ false }
{
    let words = words_of(alloc, words);
    let mut lanes = lanes;
    lanes.truncate(usize::from(MAX_LANE));
    let doors: Vec<NoDoor> = Vec::new(alloc);
    hall_alone(alloc, &words, input, output, disk, lanes, doors)
}

/// The disk that scripts leave of an empty one, run one after another.
pub fn book_of(alloc: Global, scripts: &[&[u8]]) -> Vec<u8> {
    let mut bytes = Vec::new(alloc);
    for script in scripts {
        let mut input = QuietSource::new(copy(alloc, script));
        let mut output = MemorySink::new(alloc, Vec::new(alloc));
        let disk = MemoryDisk::new(alloc, bytes, Vec::new(alloc));
        let ended = run(
            alloc,
            &["run"],
            &mut input,
            &mut output,
            disk,
            Vec::new(alloc),
        );
        bytes = copy(alloc, ended.disk.bytes());
    }
    bytes
}

/// Does what the words say over a disk, without lanes: its status, and how many rows it leaves.
pub fn ends_of<S: Source, K: Sink>(
    alloc: Global,
    words: &[&str],
    input: &mut S,
    output: &mut K,
    disk: MemoryDisk,
) -> (u8, usize)
    requires { S.ended input.old ≡ false }
{
    let ended = run(alloc, words, input, output, disk, Vec::new(alloc));
    (ended.status, ended.rows.as_slice().len())
}
