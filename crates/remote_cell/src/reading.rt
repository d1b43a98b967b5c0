ghost use Rattle.std.specs.Prelude.{◌≡◌, [], false};
ghost use Rattle.remote_cell.specs.Told.{port};
ghost use Rattle.remote_cell.specs.Steps.{ReadsByte, ReadsLine};

use crate::held::{Held, MAX_HELD};
use disk_core::{Door, Failed};

/// How the reading of a line ended.
#[derive(Clone, Copy, PartialEq, Eq)]
pub(crate) enum LineEnd {
    /// Its LF was read.
    Whole,
    /// It has no LF where a line has one.
    TooLong,
    /// The connection ended before its LF, or failed.
    Cut,
}

// The next byte of the present connection; `None` at its end.
fn read_byte<O: Door>(door: &mut O) -> Result<Option<u8>, Failed>
    requires { O.ended door.old ≡ false }
    ensures reads { ReadsByte (port O.Source O.connections O.missed door.old)
        (port O.Source O.connections O.missed door.new) result }
    ensures misses { O.missed door.new ≡ O.missed door.old }
{
    let mut byte = [0];
    match door.read(&mut byte) {
        Ok(0) => Ok(None),
        Ok(_) => Ok(Some(byte[0])),
        Err(Failed) => Err(Failed),
    }
}

/// Reads the next line of the present connection, a byte at a time, so that no byte behind its LF
/// is taken.
pub(crate) fn read_line<O: Door>(door: &mut O, line: &mut Held) -> LineEnd
    requires unended { O.ended door.old ≡ false }
    requires empty { line.old ≡ [] }
    ensures { ReadsLine (port O.Source O.connections O.missed door.old)
        (port O.Source O.connections O.missed door.new) line.new result }
{
    for _place in 0..MAX_HELD {
        match read_byte(door) {
            Ok(Some(b'\n')) => return LineEnd::Whole,
            Ok(Some(byte)) => line.push(byte),
            Ok(None) | Err(Failed) => return LineEnd::Cut,
        }
    }
    LineEnd::TooLong
}
