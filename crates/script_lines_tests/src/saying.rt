use book_words::Name;
use script_lines::{Allowed, Line, MAX_LINE, read_ended_line, read_last_line};
use std::test::Fail;

/// All that a script may have.
pub const EVERY_LINE: Allowed = Allowed {
    questions: true,
    lanes: 16,
};

/// 2025-03-03 in days since 1970-01-01.
pub const DAY: i32 = 20_150;

/// What a line says that ends in LF, and what it says as a last one that lacks it.
pub fn says(line: &[u8]) -> (Line, Line) {
    if line.len() > MAX_LINE {
        return (Line::Bad, Line::Bad);
    }
    (
        read_ended_line(EVERY_LINE, line),
        read_last_line(EVERY_LINE, line),
    )
}

/// The name of 1 to 32 bytes.
pub fn name(bytes: &[u8]) -> Result<Name, Fail> {
    Ok(Name::new(bytes).ok_or("no name")?)
}
