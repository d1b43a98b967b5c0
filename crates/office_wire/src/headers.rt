ghost use Rattle.std.specs.Prelude.{◌≡◌, All, length, map};
ghost use Rattle.std.specs.List.{list_all};
ghost use Rattle.httparse.specs.Spans.{IsHeaderWithin, header_bytes};
ghost use Rattle.office_wire.specs.Headers.{is_named, is_coded, ends_connection, is_closing, header_size, first_size, agrees, size_given};

use hall_units::read_bounded;
use httparse::spans::HeaderSpan;

/// The most digits of the length of a body.
const SIZE_DIGITS: usize = 10;

/// The greatest number of so many digits.
const MAX_SIZE: u64 = 9_999_999_999;

/// Whether the body of a request is coded for its transfer.
pub fn is_coded(text: &[u8], headers: &[HeaderSpan]) -> bool
    requires { All (IsHeaderWithin (length text.now)) headers.now }
    ensures { result ≡ is_coded (map (header_bytes text.now) headers.now) }
{
    for header in headers {
        if is_named(text, header, b"transfer-encoding") {
            return true;
        }
    }
    false
}

/// Whether the client ends the connection behind its request.
pub fn is_closing(text: &[u8], headers: &[HeaderSpan]) -> bool
    requires { All (IsHeaderWithin (length text.now)) headers.now }
    ensures { result ≡ is_closing (map (header_bytes text.now) headers.now) }
{
    for header in headers {
        if ends_connection(text, header) {
            return true;
        }
    }
    false
}

/// The length of the body, where one is given; `None` where one of them isn't a length, or isn't the
/// first one's.
pub fn size_given(text: &[u8], headers: &[HeaderSpan]) -> Option<Option<u64>>
    requires { All (IsHeaderWithin (length text.now)) headers.now }
    ensures { result ≡ size_given (map (header_bytes text.now) headers.now) }
{
    match first_size(text, headers) {
        None => Some(None),
        Some(None) => None,
        Some(Some(size)) if all_agree(text, headers, size) => Some(Some(size)),
        Some(Some(_)) => None,
    }
}

// What the first header says that gives a length.
fn first_size(text: &[u8], headers: &[HeaderSpan]) -> Option<Option<u64>>
    requires { All (IsHeaderWithin (length text.now)) headers.now }
    ensures { result ≡ first_size (map (header_bytes text.now) headers.now) }
{
    for header in headers {
        if is_named(text, header, b"content-length") {
            return Some(header_size(text, header));
        }
    }
    None
}

// Whether no header gives another length.
fn all_agree(text: &[u8], headers: &[HeaderSpan], size: u64) -> bool
    requires { All (IsHeaderWithin (length text.now)) headers.now }
    ensures { result ≡ list_all (agrees size) (map (header_bytes text.now) headers.now) }
{
    for header in headers {
        if is_named(text, header, b"content-length") && header_size(text, header) != Some(size) {
            return false;
        }
    }
    true
}

// Whether a header has this name.
fn is_named(text: &[u8], header: &HeaderSpan, name: &[u8]) -> bool
    requires { IsHeaderWithin (length text.now) header.now }
    ensures { result ≡ is_named name.now (header_bytes text.now header.now) }
{
    header.name.of(text).eq_ignore_ascii_case(name)
}

// Whether a header ends the connection.
fn ends_connection(text: &[u8], header: &HeaderSpan) -> bool
    requires { IsHeaderWithin (length text.now) header.now }
    ensures { result ≡ ends_connection (header_bytes text.now header.now) }
{
    is_named(text, header, b"connection") && header.value.of(text).eq_ignore_ascii_case(b"close")
}

// The length in the value of a header.
fn header_size(text: &[u8], header: &HeaderSpan) -> Option<u64>
    requires { IsHeaderWithin (length text.now) header.now }
    ensures { result ≡ header_size (header_bytes text.now header.now).1 }
{
    read_bounded(SIZE_DIGITS, MAX_SIZE, header.value.of(text))
}
