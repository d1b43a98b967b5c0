ghost use Rattle.std.specs.Prelude.{◌≡◌, ◌≤◌, length};
ghost use Rattle.std.specs.List.{list_all};
ghost use Rattle.lane_worker.specs.CellLines.{is_batch_byte, batch_name, batch_said, batch_or_bad, text_says, ended_says, last_says};

use crate::types::CellNext;
use book_words::Name;
use hall_units::read_grams;

/// The most bytes of a line of a cell, its CR among them and its LF not. No text of grams is half as
/// long, so a longer line is bad before it ends.
pub const MAX_CELL_LINE: usize = 64;

// Whether a byte may stand in the name of a batch that a cell gives.
fn is_batch_byte(byte: u8) -> bool
    ensures { result ≡ is_batch_byte byte }
{
    !matches!(byte, b' ' | b'\t' | b'\r')
}

// Whether each of some bytes may stand there.
fn are_batch_bytes(bytes: &[u8]) -> bool
    ensures { result ≡ list_all is_batch_byte bytes.now }
{
    bytes.iter().all(|byte| is_batch_byte(*byte))
}

// The name that some bytes are.
fn batch_name(bytes: &[u8]) -> Option<Name>
    ensures { result ≡ batch_name bytes.now }
{
    if are_batch_bytes(bytes) {
        Name::new(bytes)
    } else {
        None
    }
}

/// The batch that a text names: `batch`, one space, and 1 to 32 bytes that are neither space, tab nor
/// CR.
pub fn batch_said(text: &[u8]) -> Option<Name>
    ensures { result ≡ batch_said text.now }
{
    match text.strip_prefix(b"batch ") {
        Some(name) => batch_name(name),
        None => None,
    }
}

// What a text says that isn't a mass.
fn read_word(text: &[u8], line: u32) -> CellNext
    ensures { result ≡ batch_or_bad line (batch_said text.now) }
{
    match batch_said(text) {
        Some(batch) => CellNext::Batch { batch, line },
        None => CellNext::Bad { line },
    }
}

// What a text says in the line of this number: the mass of a pack in grams, or a batch, or nothing
// of these.
fn read_text(text: &[u8], line: u32) -> CellNext
    ensures { result ≡ text_says text.now line }
{
    match read_grams(text) {
        Ok(gross) => CellNext::Gross(gross),
        Err(_) => read_word(text, line),
    }
}

// What a line says whose LF was read; it comes without it. One CR at its end is passed over.
pub(crate) fn read_line(line: &[u8], number: u32) -> CellNext
    requires { length line.now ≤ MAX_CELL_LINE }
    ensures { result ≡ ended_says line.now number }
{
    let text = match line.split_last() {
        Some((b'\r', text)) => text,
        _ => line,
    };
    read_text(text, number)
}

// What a last line says that lacks its LF, or the beginning of one that is too long.
pub(crate) fn read_last(line: &[u8], number: u32) -> CellNext
    ensures { result ≡ last_says line.now number }
{
    if line.len() > MAX_CELL_LINE {
        return CellNext::Bad { line: number };
    }
    read_text(line, number)
}
