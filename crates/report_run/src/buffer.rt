ghost use Rattle.std.specs.Prelude.{◌≡◌, ◌≤◌, [], ◌++◌, OnOk, OnErr, IfOk, vec_capacity};
ghost use Rattle.text_streams.specs.Streams.{output_at, WroteAll, IsCutIn};
ghost use Rattle.batch_reports.specs.Appending.{HasRoom};
ghost use Rattle.report_run.specs.Printing.{HasPrinted};

use batch_reports::TEXT_ROOM;
use disk_core::{Partly, Sink};
use std::alloc::{AllocError, Global};
use text_streams::write_text;

/// The bytes of the buffer: a text goes out in pieces of about so many.
pub const BUFFER_BYTES: usize = 65_536;

/// An empty buffer.
pub fn empty_buffer(alloc: Global) -> Result<Vec<u8>, AllocError>
    ensures empty { IfOk result (λ text. text.items ≡ []) }
    ensures room { IfOk result (λ text. BUFFER_BYTES ≤ vec_capacity text) }
{
    let text = Vec::with_capacity(alloc, BUFFER_BYTES)?;
    Ok(text)
}

/// Writes out what the buffer holds.
pub fn flush<K: Sink>(output: &mut K, text: &mut Vec<u8>) -> Result<(), Partly>
    ensures wrote { OnOk result (WroteAll (output_at K.Sink output.old)
        (output_at K.Sink output.new) text.old.items) }
    ensures cut { OnErr result (IsCutIn (output_at K.Sink output.old)
        (output_at K.Sink output.new) [] text.old.items) }
    ensures empty { OnOk result (text.new.items ≡ []) }
    ensures room { vec_capacity text.new ≡ vec_capacity text.old }
{
    write_text(output, text)?;
    text.clear();
    Ok(())
}

/// Makes room for one more text: where it isn't there, what the buffer holds goes out first.
pub fn make_way<K: Sink>(output: &mut K, text: &mut Vec<u8>) -> Result<(), Partly>
    requires { BUFFER_BYTES ≤ vec_capacity text.old }
    ensures printed { OnOk result (HasPrinted (output_at K.Sink output.old)
        (output_at K.Sink output.new) text.old.items text.new.items []) }
    ensures cut { OnErr result (IsCutIn (output_at K.Sink output.old)
        (output_at K.Sink output.new) [] text.old.items) }
    ensures free { OnOk result (HasRoom text.new TEXT_ROOM) }
    ensures room { vec_capacity text.new ≡ vec_capacity text.old }
{
    if text.len() > BUFFER_BYTES - TEXT_ROOM {
        flush(output, text)?;
    }
    Ok(())
}
