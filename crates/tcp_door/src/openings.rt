/// The most bytes of a line of a scale. One more without an LF is a turn too: who reads them says
/// what they are.
const MAX_LINE: usize = 64;

/// In so many bytes a request has its head, or none.
const MAX_HEAD: usize = 8_192;

/// What a client has to send before it has its turn.
#[derive(Clone, Copy, PartialEq, Eq)]
pub enum Opening {
    /// A line, or more bytes than one has.
    Line,
    /// The head of a request, up to its first empty line, or as many bytes as one may have.
    Head,
}

impl Opening {
    /// Whether these bytes are as much. Where empty lines are all there is, they are taken for a
    /// head too.
    pub(crate) fn is_whole(self, bytes: &[u8]) -> bool {
        match self {
            Opening::Line => MAX_LINE < bytes.len() || bytes.contains(&b'\n'),
            Opening::Head => MAX_HEAD <= bytes.len() || has_empty_line(bytes),
        }
    }
}

// Whether an empty line, an LF or CR LF, stands right behind an LF.
fn has_empty_line(bytes: &[u8]) -> bool {
    let is_bare = bytes.windows(2).any(|pair| pair == b"\n\n".as_slice());
    is_bare || bytes.windows(3).any(|ends| ends == b"\n\r\n".as_slice())
}
