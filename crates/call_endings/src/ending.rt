ghost use Rattle.std.specs.Prelude.{◌≡◌, [], ◌++◌, min, OnOk, OnErr};
ghost use Rattle.text_streams.specs.Streams.{output_at, WroteAll, IsCutIn};
ghost use Rattle.call_endings.specs.Endings.{line_of_why, line_of_stop, line_behind, last_line, status_of_why, status_of_stop, status_behind, status_of, SaysLast, LacksMemory};

use crate::early::{SPENT, early_status};
use crate::served::{status_of_serve, write_serve};
use book_mount::MountError;
use disk_core::{Partly, Sink};
use job_reports::ServeStop;
use lane_worker::LaneEnd;
use office_door::DoorEnd;
use store_runs::Stop;
use text_streams::{write_numbered, write_text};

/// The status where the output failed.
pub const WRITE_FAULT: u8 = 5;

/// How a call of the program ended, before its last text.
#[derive(Clone, Copy)]
pub enum Ending {
    /// The words are no command.
    Usage,
    /// The disk wasn't opened as a book.
    Unopened(MountError),
    /// A command other than `serve` stopped so.
    Stopped(Stop),
    /// The command `serve` stopped so.
    Served(ServeStop),
}

// Writes the line that says why a disk wasn't opened as a book.
fn write_why<K: Sink>(why: MountError, output: &mut K) -> Result<(), Partly>
    ensures wrote { OnOk result (WroteAll (output_at K.Sink output.old)
        (output_at K.Sink output.new) (line_of_why why)) }
    ensures cut { OnErr result (IsCutIn (output_at K.Sink output.old)
        (output_at K.Sink output.new) [] (line_of_why why)) }
{
    match why {
        MountError::NotJournal { place } => {
            write_numbered(output, b"not a journal at ", place, b"\n")
        }
        MountError::Damaged { row } => {
            write_numbered(output, b"damaged row ", u64::from(row), b"\n")
        }
        MountError::DiskFault => write_text(output, b"disk fault\n"),
        MountError::NoMemory => write_text(output, b"no memory\n"),
    }
}

/// Writes the line that says how a command stopped, where it has one.
pub fn write_stop<K: Sink>(stop: Stop, output: &mut K) -> Result<(), Partly>
    ensures wrote { OnOk result (WroteAll (output_at K.Sink output.old)
        (output_at K.Sink output.new) (line_of_stop stop)) }
    ensures cut { OnErr result (IsCutIn (output_at K.Sink output.old)
        (output_at K.Sink output.new) [] (line_of_stop stop)) }
{
    match stop {
        Stop::BadLine(number) => write_numbered(output, b"bad line ", number, b"\n"),
        Stop::ReadFault => write_text(output, b"read fault\n"),
        Stop::DiskFault(_) => write_text(output, b"disk fault\n"),
        Stop::NoMemory => write_text(output, b"no memory\n"),
        Stop::Finished | Stop::WriteFault | Stop::Spent => write_text(output, b""),
    }
}

// Writes the line that says how a command stopped, where it has one. A lane that ended early is no
// want of memory.
fn write_behind<K: Sink>(stop: Stop, early: Option<u8>, output: &mut K) -> Result<(), Partly>
    ensures wrote { OnOk result (WroteAll (output_at K.Sink output.old)
        (output_at K.Sink output.new) (line_behind stop early)) }
    ensures cut { OnErr result (IsCutIn (output_at K.Sink output.old)
        (output_at K.Sink output.new) [] (line_behind stop early)) }
{
    match (stop, early) {
        (Stop::NoMemory, Some(_)) => write_text(output, b""),
        _ => write_stop(stop, output),
    }
}

// Writes the last line of a call.
fn write_line<K: Sink>(ending: Ending, early: Option<u8>, output: &mut K) -> Result<(), Partly>
    ensures wrote { OnOk result (WroteAll (output_at K.Sink output.old)
        (output_at K.Sink output.new) (last_line ending early)) }
    ensures cut { OnErr result (IsCutIn (output_at K.Sink output.old)
        (output_at K.Sink output.new) [] (last_line ending early)) }
{
    match ending {
        Ending::Usage => write_text(output, b"usage: hall COMMAND [OPTIONS]\n"),
        Ending::Unopened(why) => write_why(why, output),
        Ending::Stopped(stop) => write_behind(stop, early, output),
        Ending::Served(stop) => write_serve(stop, early, output),
    }
}

// Writes a text that is still to be said, and the last line of a call.
fn write_last<K: Sink>(
    unsaid: &[u8],
    ending: Ending,
    early: Option<u8>,
    output: &mut K,
) -> Result<(), Partly>
    ensures wrote { OnOk result (WroteAll (output_at K.Sink output.old)
        (output_at K.Sink output.new) (unsaid.now ++ last_line ending early)) }
    ensures cut { OnErr result (IsCutIn (output_at K.Sink output.old)
        (output_at K.Sink output.new) [] (unsaid.now ++ last_line ending early)) }
{
    write_text(output, unsaid)?;
    write_line(ending, early, output)?;
    Ok(())
}

// The status where a disk wasn't opened as a book.
fn status_of_why(why: MountError) -> u8
    ensures { result ≡ status_of_why why }
{
    match why {
        MountError::NotJournal { .. } => 8,
        MountError::Damaged { .. } => 9,
        MountError::DiskFault => 6,
        MountError::NoMemory => 7,
    }
}

/// The status of a command that stopped so.
pub fn status_of_stop(stop: Stop) -> u8
    ensures { result ≡ status_of_stop stop }
{
    match stop {
        Stop::Finished => 0,
        Stop::BadLine(_) => 3,
        Stop::ReadFault => 4,
        Stop::WriteFault => WRITE_FAULT,
        Stop::DiskFault(_) => 6,
        Stop::NoMemory => 7,
        Stop::Spent => SPENT,
    }
}

// The status of a command that stopped so, where lanes have this status: the least of both, but the
// want of memory comes last.
fn status_behind(stop: Stop, early: Option<u8>) -> u8
    ensures { result ≡ status_behind stop early }
{
    match (stop, early) {
        (Stop::Finished | Stop::NoMemory, Some(status)) => status,
        (_, Some(status)) => status_of_stop(stop).min(status),
        (_, None) => status_of_stop(stop),
    }
}

// The status of a call whose last text goes out.
fn status_of(ending: Ending, early: Option<u8>) -> u8
    ensures { result ≡ status_of ending early }
{
    match ending {
        Ending::Usage => 2,
        Ending::Unopened(why) => status_of_why(why),
        Ending::Stopped(stop) => status_behind(stop, early),
        Ending::Served(stop) => status_of_serve(stop, early),
    }
}

/// Writes the last text of a call, and gives its status: the line of a lane that is still to be
/// said, and the line that its status has, where its lanes and doors ended so. It takes no memory.
pub fn say_last<K: Sink>(
    ending: Ending,
    unsaid: &[u8],
    lanes: &[LaneEnd],
    doors: &[DoorEnd],
    output: &mut K,
) -> u8
    ensures { SaysLast ending (record { ends = lanes.now; unsaid = unsaid.now }) doors.now
        (output_at K.Sink output.old) (output_at K.Sink output.new) result }
{
    let early = early_status(lanes, doors);
    let status = status_of(ending, early);
    match write_last(unsaid, ending, early, output) {
        Ok(()) => status,
        Err(_) => status.min(WRITE_FAULT),
    }
}

/// The end of a call that opens no book, no lane and no door: writes its last line, and gives its
/// status.
pub fn end_unopened<K: Sink>(ending: Ending, output: &mut K) -> u8
    ensures { SaysLast ending (record { ends = []; unsaid = [] }) [] (output_at K.Sink output.old)
        (output_at K.Sink output.new) result }
{
    say_last(ending, b"", &[], &[], output)
}

/// The end of a call for which there is no memory.
pub fn end_without_memory<K: Sink>(output: &mut K) -> u8
    ensures { LacksMemory (output_at K.Sink output.old) (output_at K.Sink output.new) result }
{
    end_unopened(Ending::Unopened(MountError::NoMemory), output)
}
