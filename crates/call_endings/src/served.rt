//! The line and the status of a serve.
ghost use Rattle.std.specs.Prelude.{◌≡◌, [], OnOk, OnErr};
ghost use Rattle.text_streams.specs.Streams.{output_at, WroteAll, IsCutIn};
ghost use Rattle.call_endings.specs.Endings.{line_of_jobs, line_of_serve, status_of_jobs, status_of_serve};

use crate::ending::{WRITE_FAULT, status_of_stop, write_stop};
use disk_core::{Partly, Sink};
use job_reports::{JobsStop, ServeStop};
use text_streams::write_text;

// The line of jobs that came to their end so.
fn line_of_jobs(stop: JobsStop, early: Option<u8>) -> &'static [u8]
    ensures { result.now ≡ line_of_jobs stop early }
{
    match stop {
        JobsStop::Finished | JobsStop::WriteFault => b"",
        JobsStop::DiskFault => b"disk fault\n",
        JobsStop::NoMemory => match early {
            Some(_) => b"",
            None => b"no memory\n",
        },
    }
}

/// Writes the line of a serve that stopped so, where it has one. A lane or a door that ended early
/// is no want of memory.
pub fn write_serve<K: Sink>(
    stop: ServeStop,
    early: Option<u8>,
    output: &mut K,
) -> Result<(), Partly>
    ensures wrote { OnOk result (WroteAll (output_at K.Sink output.old)
        (output_at K.Sink output.new) (line_of_serve stop early)) }
    ensures cut { OnErr result (IsCutIn (output_at K.Sink output.old)
        (output_at K.Sink output.new) [] (line_of_serve stop early)) }
{
    match stop {
        ServeStop::BadPlan => write_text(output, b"bad plan\n"),
        ServeStop::Early(stop) => write_stop(stop, output),
        ServeStop::Ran(stop) => write_text(output, line_of_jobs(stop, early)),
    }
}

// The status of jobs that came to their end so, where lanes or doors have this status.
fn status_of_jobs(stop: JobsStop, early: Option<u8>) -> u8
    ensures { result ≡ status_of_jobs stop early }
{
    match stop {
        JobsStop::WriteFault => WRITE_FAULT,
        JobsStop::DiskFault => 6,
        JobsStop::Finished => early.unwrap_or(0),
        JobsStop::NoMemory => early.unwrap_or(7),
    }
}

/// The status of a serve that stopped so, where lanes or doors have this status.
pub fn status_of_serve(stop: ServeStop, early: Option<u8>) -> u8
    ensures { result ≡ status_of_serve stop early }
{
    match stop {
        ServeStop::BadPlan => 3,
        ServeStop::Early(stop) => status_of_stop(stop),
        ServeStop::Ran(stop) => status_of_jobs(stop, early),
    }
}
