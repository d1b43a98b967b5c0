ghost use Rattle.std.specs.Prelude.{◌≡◌, false};

use book_mount::mount;
use disk_core::{Disk, MemoryDisk, MemorySink, MemorySource, Source};
use import_run::run_import;
use std::alloc::Global;
use store_runs::Stop;

/// How a run of an import stops.
#[derive(Clone, Copy, Debug, PartialEq, Eq)]
pub enum Ends {
    Finished,
    BadLine(u64),
    ReadFault,
    WriteFault,
    DiskFault,
    NoMemory,
    Spent,
}

fn ends_of(stop: Stop) -> Ends {
    match stop {
        Stop::Finished => Ends::Finished,
        Stop::BadLine(number) => Ends::BadLine(number),
        Stop::ReadFault => Ends::ReadFault,
        Stop::WriteFault => Ends::WriteFault,
        Stop::DiskFault(_) => Ends::DiskFault,
        Stop::NoMemory => Ends::NoMemory,
        Stop::Spent => Ends::Spent,
    }
}

/// How a run ends, how many rows are left, and the bytes that the disk then has.
pub type Left = (Ends, usize, Vec<u8>);

/// Runs an import over a disk that can be mounted.
pub fn run_over<S: Source>(
    alloc: Global,
    disk: MemoryDisk,
    input: &mut S,
    output: &mut MemorySink,
) -> Option<Left>
    requires { S.ended input.old ≡ false }
{
    let Ok(store) = mount(alloc, disk, 1_000_000) else {
        return None;
    };
    let ended = run_import(alloc, store, input, output);
    let ends = ends_of(ended.stop);
    let (disk, rows) = ended.store.close();
    let bytes = Vec::from_slice(alloc, disk.bytes()).ok()?;
    Some((ends, rows.as_slice().len(), bytes))
}

/// Which read, which write and which call of the disk fail, counted from 1.
pub type Fails = (u32, u32, u32);

/// What is printed, how the run ends, and how many rows are left.
pub type Wanted = (&'static str, Ends, usize);

/// Runs an import over a disk of these bytes: those that the disk then has, where the run ends as
/// wanted.
pub fn run_so(
    alloc: Global,
    bytes: Vec<u8>,
    import: &[u8],
    fails: Fails,
    wanted: Wanted,
) -> Option<Vec<u8>> {
    let (read, write, call) = fails;
    let (text, ends, rows) = wanted;
    let reads = vec![in alloc; read].ok()?;
    let mut input = MemorySource::new(Vec::from_slice(alloc, import).ok()?, reads);
    let mut output = MemorySink::new(alloc, vec![in alloc; write].ok()?);
    let disk = MemoryDisk::new(alloc, bytes, vec![in alloc; call].ok()?);
    let left = run_over(alloc, disk, &mut input, &mut output)?;
    if output.bytes() == text.as_bytes() && (left.0, left.1) == (ends, rows) {
        Some(left.2)
    } else {
        None
    }
}
