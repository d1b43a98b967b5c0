ghost use Rattle.std.specs.Prelude.{◌≡◌, IfOk};
ghost use Rattle.lane_files.specs.LateFile.{cell_path, gate_path};

use crate::late_file::LateFile;
use crate::told_lines::ToldLines;
use crate::types::{FileCell, FileGate};
use disk_core::{StdSink, StdSource};
use lane_worker::LineGate;
use std::alloc::{AllocError, Global};
use std::fs::{File, OpenOptions};
use std::io::Eprint;
use std::rt::Files;
use stop_file::StopFile;

/// The cell of a lane's number over a file in a folder: it reads `cell-N.txt`. The file is opened
/// when it is first read; where that fails, and at each call from then on, the cell fails. Standard
/// error is told why, each line that isn't a weight, and the cell's end.
pub fn file_cell<'a, R: Files<File = File> + Eprint>(
    alloc: Global,
    rt: &'a R,
    folder: &str,
    number: u8,
    stop: StopFile,
) -> Result<FileCell<'a, R>, AllocError>
    ensures named { IfOk result (λ cell. cell.reader.reader.path ≡ cell_path folder.now number) }
{
    let path = format!(in alloc; "{folder}/cell-{number}.txt")?;
    let mut reading = OpenOptions::new();
    reading.read(true);
    let told = format!(in alloc; "{path}")?;
    let file = LateFile::new(rt, path, reading, stop);
    Ok(ToldLines::new(StdSource::new(file), rt, told))
}

/// The gate of a lane's number over a file in a folder: it writes behind what `gate-N.txt` has,
/// which is made where it isn't there. The file is opened when it is first written; where that
/// fails, and at each call from then on, the gate fails.
pub fn file_gate<'a, R: Files<File = File> + Eprint>(
    alloc: Global,
    rt: &'a R,
    folder: &str,
    number: u8,
    stop: StopFile,
) -> Result<FileGate<'a, R>, AllocError>
    ensures named { IfOk result (λ gate. gate.writer.writer.path ≡ gate_path folder.now number) }
{
    let path = format!(in alloc; "{folder}/gate-{number}.txt")?;
    let mut appending = OpenOptions::new();
    appending.append(true).create(true);
    let file = LateFile::new(rt, path, appending, stop);
    Ok(LineGate::new(StdSink::new(file)))
}
