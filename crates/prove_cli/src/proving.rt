ghost use Rattle.std.specs.Prelude.{◌≡◌, [], false, min, OnErr, OnOk};
ghost use Rattle.text_streams.specs.Streams.{input_at, output_at, WroteAll, IsCutIn};
ghost use Rattle.prove_cli.specs.Endings.{status_of, last_line, SaysEnd, ProvesInput};

use disk_core::{Partly, Sink, Source};
use prove_run::{ProveEnd, prove_input};
use std::alloc::Global;
use text_streams::{write_numbered, write_text};

// The status where the output failed.
const WRITE_FAULT: u8 = 5;

// The status of each end, where its line went out.
fn status_of(end: ProveEnd) -> u8
    ensures { result ≡ status_of end }
{
    match end {
        ProveEnd::Proved => 0,
        ProveEnd::BadLine(_) => 3,
        ProveEnd::ReadFault => 4,
        ProveEnd::WriteFault => WRITE_FAULT,
        ProveEnd::NoMemory => 7,
    }
}

// Writes the last line of an end, where it has one.
fn write_end<K: Sink>(end: ProveEnd, output: &mut K) -> Result<(), Partly>
    ensures wrote { OnOk result (WroteAll (output_at K.Sink output.old)
        (output_at K.Sink output.new) (last_line end)) }
    ensures cut { OnErr result (IsCutIn (output_at K.Sink output.old)
        (output_at K.Sink output.new) [] (last_line end)) }
{
    match end {
        ProveEnd::BadLine(line) => write_numbered(output, b"bad line ", u64::from(line), b"\n"),
        ProveEnd::ReadFault => write_text(output, b"read fault\n"),
        ProveEnd::NoMemory => write_text(output, b"no memory\n"),
        ProveEnd::Proved | ProveEnd::WriteFault => write_text(output, b""),
    }
}

// Writes the last line of an end, and gives the status.
fn say_end<K: Sink>(end: ProveEnd, output: &mut K) -> u8
    ensures { SaysEnd end (output_at K.Sink output.old) (output_at K.Sink output.new) result }
{
    match write_end(end, output) {
        Ok(()) => status_of(end),
        Err(_) => status_of(end).min(WRITE_FAULT),
    }
}

/// Proves that an input is a true paper, and gives the status: 0 where it is, and `true VERDICT` is
/// written; 3 at a fault, whose line is written; 4 where the input failed, 5 where the output did, 7
/// where there is no memory. The input hasn't told its end before.
pub fn prove<S: Source, K: Sink>(alloc: Global, input: &mut S, output: &mut K) -> u8
    requires unended { S.ended input.old ≡ false }
    ensures { ProvesInput (input_at S.Source input.old) (input_at S.Source input.new)
        (output_at K.Sink output.old) (output_at K.Sink output.new) result }
{
    let end = prove_input(alloc, input, output);
    say_end(end, output)
}
