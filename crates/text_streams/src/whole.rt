ghost use Rattle.std.specs.Prelude.{◌≡◌, ◌++◌, ◌<◌, ◌≤◌, false, length, OnOk, IfOk, IfErr};
ghost use Rattle.text_streams.specs.declared.reader.TheConstants.{PIECE};
ghost use Rattle.text_streams.specs.Streams.{input_at};
ghost use Rattle.text_streams.specs.Reading.{ReadsWhole};
ghost use Rattle.text_streams.specs.WholeInputs.{StopsBehind, StopsReading};

use crate::reader::{ReadError, Reader};
use disk_core::Source;
use std::alloc::Global;

/// Why an input wasn't read whole.
#[derive(Clone, Copy, PartialEq, Eq)]
pub enum Unread {
    /// It has more bytes than it may have.
    TooLong,
    /// The input failed.
    Failed,
    /// There was no memory for its bytes.
    NoMemory,
}

impl From<ReadError> for Unread {
    ghost use Rattle.std.specs.Prelude.{◌≡◌};
    ghost use Rattle.text_streams.specs.WholeInputs.{unread_by};

    ghost from_gives = { λ error unread. unread ≡ unread_by error };

    // Each read gives a byte, so that an input whose reads are spent is too long.
    fn from(error: ReadError) -> Unread {
        match error {
            ReadError::Failed => Unread::Failed,
            ReadError::Spent => Unread::TooLong,
        }
    }
}

// Adds a piece to the bytes of an input, unless it may not have so many.
fn add_piece(bytes: &mut Vec<u8>, piece: &[u8], most: u32) -> Result<(), Unread>
    requires short { length bytes.old.items ≤ most }
    requires piece { length piece.now ≤ PIECE }
    ensures added { OnOk result (bytes.new.items ≡ bytes.old.items ++ piece.now) }
    ensures short { OnOk result (length bytes.new.items ≤ most) }
    ensures stops { IfErr result (StopsBehind most (bytes.old.items ++ piece.now)) }
{
    if piece.len() > most as usize - bytes.len() {
        return Err(Unread::TooLong);
    }
    match bytes.extend_from_slice(piece) {
        Ok(()) => Ok(()),
        Err(_) => Err(Unread::NoMemory),
    }
}

/// Reads an input of at most `most` bytes to its end, piece by piece. The memory for it grows as
/// the bytes come, so that a short input takes little.
///
/// `TooLong` comes with the piece by which it has more bytes, and no more is read; `Failed` where
/// the input failed; `NoMemory` at any piece. The bytes that were taken are then let go.
pub fn read_whole<S: Source>(alloc: Global, input: &mut S, most: u32) -> Result<Vec<u8>, Unread>
    requires unended { S.ended input.old ≡ false }
    requires countable { most < u32.MAX }
    ensures whole { IfOk result (λ bytes. ReadsWhole (input_at S.Source input.old)
        (input_at S.Source input.new) bytes.items) }
    ensures short { IfOk result (λ bytes. length bytes.items ≤ most) }
    ensures stops { IfErr result (StopsReading most (input_at S.Source input.old)
        (input_at S.Source input.new)) }
{
    let Ok(mut reader) = Reader::new(alloc, most + 1) else {
        return Err(Unread::NoMemory);
    };
    let mut bytes = Vec::new(alloc);
    loop {
        reader.read(input)?;
        if reader.piece().is_empty() {
            return Ok(bytes);
        }
        add_piece(&mut bytes, reader.piece(), most)?;
    }
}
