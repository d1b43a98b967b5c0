ghost use Rattle.std.specs.Prelude.{◌≡◌, ◌≤◌, length, IfSome};
ghost use Rattle.std.specs.List.{list_all, prefix_len};
ghost use Rattle.office_wire.specs.HeadSize.{is_newline, empty_line_size, lines_size, head_size};

/// How many bytes the head text of a request has: up to the end of the first empty line behind the
/// first byte that is neither CR nor LF. `None` where that line isn't there.
pub fn head_size(bytes: &[u8]) -> Option<usize>
    ensures value { result ≡ head_size bytes.now }
    ensures within { IfSome result (λ size. size ≤ length bytes.now) }
{
    let leading = count_newlines(bytes);
    let size = lines_size(bytes.split_at(leading).1)?;
    Some(leading + size)
}

// The number of bytes before the first that is neither CR nor LF.
fn count_newlines(bytes: &[u8]) -> usize
    ensures value { result ≡ prefix_len is_newline bytes.now }
    ensures within { result ≤ length bytes.now }
{
    bytes.iter().take_while(|byte| is_newline(**byte)).count()
}

// How many bytes there are up to the end of the first empty line.
fn lines_size(bytes: &[u8]) -> Option<usize>
    ensures value { result ≡ lines_size bytes.now }
    ensures within { IfSome result (λ size. size ≤ length bytes.now) }
{
    for place in 0..bytes.len() {
        if let Some(size) = empty_line_size(bytes.split_at(place).1) {
            return Some(place + size);
        }
    }
    None
}

// How many bytes an LF and the empty line right behind it have, where bytes begin with them.
fn empty_line_size(bytes: &[u8]) -> Option<usize>
    ensures value { result ≡ empty_line_size bytes.now }
    ensures within { IfSome result (λ size. size ≤ length bytes.now) }
{
    if bytes.starts_with(b"\n\n") {
        Some(2)
    } else if bytes.starts_with(b"\n\r\n") {
        Some(3)
    } else {
        None
    }
}

/// Whether all bytes are CR and LF.
pub fn are_newlines(bytes: &[u8]) -> bool
    ensures { result ≡ list_all is_newline bytes.now }
{
    bytes.iter().all(|byte| is_newline(*byte))
}

// CR or LF.
fn is_newline(byte: u8) -> bool
    ensures { result ≡ is_newline byte }
{
    byte == b'\r' || byte == b'\n'
}
