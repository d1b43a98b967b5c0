use hall_units::read_grams;
use lane_worker::MAX_CELL_LINE;
use std::fmt;

/// Bytes as text, as many as a line has at most: what isn't a printable character of ASCII is shown
/// by its number.
#[derive(Clone, Copy)]
pub(crate) struct Shown<'a>(pub &'a [u8]);

impl fmt::Display for Shown<'_> {
    fn fmt<W: fmt::Write>(&self, f: &mut fmt::Formatter<W>) -> fmt::Result {
        for byte in self.0.iter().take(MAX_CELL_LINE) {
            match byte {
                b' '..=b'~' => write!(f, "{}", char::from(*byte))?,
                _ => write!(f, "\\x{:02x}", *byte)?,
            }
        }
        Ok(())
    }
}

/// Why a line isn't a weight, by its bytes without the LF.
pub(crate) fn reason(line: &[u8]) -> &'static str {
    if line.len() > MAX_CELL_LINE {
        return "more than 64 bytes";
    }
    let text = line.strip_suffix(b"\r").unwrap_or(line);
    match read_grams(text) {
        Ok(_) => "a CR without its LF",
        Err(error) => reason_behind(text, error.place),
    }
}

// Why a text isn't a weight of which the first so many bytes begin one.
fn reason_behind(text: &[u8], place: usize) -> &'static str {
    let (begun, rest) = text.split_at_checked(place).unwrap_or((text, &[]));
    match rest.first() {
        None if begun.is_empty() => "an empty line",
        None => "no digit behind the point",
        Some(b',') => "a comma, where a point is wanted",
        Some(b'+' | b'-') => "a sign",
        Some(b'0'..=b'9') if begun.contains(&b'.') => "more than three decimals",
        Some(b'0'..=b'9') => "more than eight digits",
        Some(b' ' | b'\t') if is_unit(rest) => "a unit",
        Some(b' ' | b'\t') => "a blank",
        Some(b'a'..=b'z' | b'A'..=b'Z') if !begun.is_empty() => "a unit",
        Some(b'.') if begun.is_empty() => "no digit before the point",
        _ => "a character that no weight has",
    }
}

// Whether a unit stands behind blanks.
fn is_unit(rest: &[u8]) -> bool {
    let mut behind = rest.iter().filter(|byte| **byte != b' ' && **byte != b'\t');
    behind.next().is_some_and(|byte| byte.is_ascii_alphabetic())
}
