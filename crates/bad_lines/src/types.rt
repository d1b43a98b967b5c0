use std::fmt;

/// Why a line is bad.
#[derive(Clone, Copy, PartialEq, Eq)]
pub enum Reason<'a> {
    /// A byte order mark stands before it.
    ByteOrderMark,
    /// It is longer than a line may be.
    Long,
    /// A byte of it is none of text.
    NoText,
    /// Semicolons part its fields.
    Semicolons,
    /// The table doesn't begin with it.
    NoHeader,
    /// It isn't of three fields.
    NoRecord,
    /// This number of it has a comma.
    Comma(&'a [u8]),
    /// This of it is wrong, as is said.
    Part(&'static str, &'a [u8]),
    /// A desk's number of the request is missing before this word.
    NoRequest(&'a [u8]),
    /// There is no such command.
    NoCommand(&'a [u8]),
    /// The command is none of those that a desk sends.
    NoAct(&'a [u8]),
    /// It isn't spelled as that command is.
    Form(&'static str),
    /// It isn't what a line of a paper has to be there.
    Paper(&'static str),
}

/// How many bytes of a line are shown.
pub(crate) const SHOWN: usize = 200;

/// Bytes as text: what isn't a printable character of ASCII is shown by its number.
#[derive(Clone, Copy)]
pub(crate) struct Shown<'a>(pub &'a [u8]);

// Shows one byte.
fn show<W: fmt::Write>(byte: u8, f: &mut fmt::Formatter<W>) -> fmt::Result {
    match byte {
        b' '..=b'~' => write!(f, "{}", char::from(byte)),
        _ => write!(f, "\\x{byte:02x}"),
    }
}

impl fmt::Display for Shown<'_> {
    fn fmt<W: fmt::Write>(&self, f: &mut fmt::Formatter<W>) -> fmt::Result {
        self.0
            .iter()
            .take(SHOWN)
            .try_for_each(|byte| show(*byte, f))
    }
}

impl fmt::Display for Reason<'_> {
    fn fmt<W: fmt::Write>(&self, f: &mut fmt::Formatter<W>) -> fmt::Result {
        match self {
            Reason::ByteOrderMark => f.write_str("a byte order mark: save the text without it"),
            Reason::Long => f.write_str("more than 200 bytes"),
            Reason::NoText => f.write_str("a character that no command has"),
            Reason::Semicolons => f.write_str("commas, not semicolons, part the fields"),
            Reason::NoHeader => f.write_str("the table begins with desk,request,command"),
            Reason::NoRecord => f.write_str("three fields are wanted: desk,request,command"),
            Reason::Comma(word) => write!(f, "a point, not a comma, in {}", Shown(word)),
            Reason::Part(why, word) => write!(f, "{why} {}", Shown(word)),
            Reason::NoRequest(word) => write!(
                f,
                "the request number is missing before {}",
                Shown(word)
            ),
            Reason::NoCommand(word) => write!(f, "no such command: {}", Shown(word)),
            Reason::NoAct(word) => write!(f, "no act that a desk sends: {}", Shown(word)),
            Reason::Form(form) => write!(f, "not as {form}"),
            Reason::Paper(why) => f.write_str(why),
        }
    }
}
