ghost use Rattle.std.specs.Prelude.{OnOk};
ghost use Rattle.std.specs.Io.KnownBytes.{Appends};
ghost use Rattle.lane_worker.specs.GateLines.{opening_line};

use disk_core::{Failed, Sink, write_all};
use itoa::write_digits;

// The text before the number of a pack.
const OPEN: &[u8] = b"open ";

// The most bytes of a line: the text, ten digits and an LF.
const MAX_OPENING: usize = 16;

// Writes the line that opens the gate for a pack, in one write where the sink takes it whole.
pub(crate) fn write_opening<K: Sink>(sink: &mut K, pack: u32) -> Result<(), Failed>
    ensures line { OnOk result
        (Appends (K.held sink.old) (K.held sink.new) (opening_line pack)) }
{
    let mut line = [b'\n'; MAX_OPENING];
    let digits = write_digits(u64::from(pack), &mut line, MAX_OPENING - 1);
    let begin = digits - OPEN.len();
    line[begin..digits].copy_from_slice(OPEN);
    match write_all(sink, &line[begin..]) {
        Ok(()) => Ok(()),
        Err(_) => Err(Failed),
    }
}
