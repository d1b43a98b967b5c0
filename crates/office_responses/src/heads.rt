ghost use Rattle.std.specs.Prelude.{◌≡◌, ◌≤◌, ◌+◌, ◌++◌, List, ℕ, codes, decimal, length, vec_capacity, vec_len};
ghost use Rattle.batch_reports.specs.Appending.{HasRoom, Appended};
ghost use Rattle.office_responses.specs.Codes.{code_text};
ghost use Rattle.office_responses.specs.Responses.{status_text, media_text, method_text, head_line, extra_line, closing_line, head_text, response};

use crate::types::{Extra, Head, Media, Status};
use batch_reports::{append, append_count, append_number};
use http::StatusCode;

/// The most bytes of the label of a line.
const MAX_LABEL: usize = 16;

/// The bytes of the end of a line.
const LINE_END: usize = 2;

/// The most bytes of a status: a code and its phrase. The other words of a head are shorter.
const MAX_VALUE: usize = 25;

/// The most bytes of a line.
const MAX_LINE: usize = MAX_LABEL + MAX_VALUE + LINE_END;

/// The most bytes of the head of a response: five lines, and the empty one.
pub const HEAD_ROOM: usize = 5 * MAX_LINE + LINE_END;

/// Puts a head before the body, which is all that stands from `start` on.
pub fn put_head(to: &mut Vec<u8>, start: usize, head: &Head)
    requires start { start ≤ vec_len to.old }
    requires room { HasRoom to.old HEAD_ROOM }
    ensures items { (before body : List ℕ) → to.old.items ≡ before ++ body
        → length before ≡ start → to.new.items ≡ before ++ response head.now body }
    ensures longest { vec_len to.new ≤ vec_len to.old + HEAD_ROOM }
    ensures capacity { vec_capacity to.new ≡ vec_capacity to.old }
{
    let size = to.len() - start;
    push_head(to, head, size);
    move_back(to.as_mut_slice(), start, size);
}

// Moves the bytes that stand behind `size` bytes from `start` on, before those.
fn move_back(bytes: &mut [u8], start: usize, size: usize)
    requires { start + size ≤ length bytes.old }
    ensures { (before body behind : List ℕ) → bytes.old ≡ before ++ (body ++ behind)
        → length before ≡ start → length body ≡ size
        → bytes.new ≡ before ++ (behind ++ body) }
{
    bytes[start..].rotate_left(size);
}

// Appends the head before a body of so many bytes.
fn push_head(to: &mut Vec<u8>, head: &Head, size: usize)
    requires { HasRoom to.old HEAD_ROOM }
    ensures { Appended to.old to.new (head_text head.now size) HEAD_ROOM }
{
    push_status(to, head.status);
    push_line(to, b"Content-Type: ", media_word(head.media));
    push_size(to, size);
    push_extra(to, head.extra);
    push_closing(to, head.last);
    append(to, b"\r\n");
}

// Appends a line: a label and a word.
fn push_line(to: &mut Vec<u8>, label: &[u8], word: &[u8])
    requires room { HasRoom to.old MAX_LINE }
    requires label { length label.now ≤ MAX_LABEL }
    requires short { length word.now ≤ MAX_VALUE }
    ensures { Appended to.old to.new (head_line label.now word.now) MAX_LINE }
{
    append(to, label);
    append(to, word);
    append(to, b"\r\n");
}

// Appends the first line: the code of a status and its phrase.
fn push_status(to: &mut Vec<u8>, status: Status)
    requires { HasRoom to.old MAX_LINE }
    ensures { Appended to.old to.new
        (head_line (codes "HTTP/1.1 ") (status_text status)) MAX_LINE }
{
    let code = code_of(status);
    append(to, b"HTTP/1.1 ");
    append(to, code.as_str().as_bytes());
    append(to, b" ");
    append(to, code.canonical_reason().unwrap_or("").as_bytes());
    append(to, b"\r\n");
}

// Appends the line of the length of the body.
fn push_size(to: &mut Vec<u8>, size: usize)
    requires { HasRoom to.old MAX_LINE }
    ensures { Appended to.old to.new
        (head_line (codes "Content-Length: ") (decimal size)) MAX_LINE }
{
    append(to, b"Content-Length: ");
    append_number(to, size as u64);
    append(to, b"\r\n");
}

// Appends the line that not every head has.
fn push_extra(to: &mut Vec<u8>, extra: Extra)
    requires { HasRoom to.old MAX_LINE }
    ensures { Appended to.old to.new (extra_line extra) MAX_LINE }
{
    match extra {
        Extra::Nothing => (),
        Extra::BookRow { at } => push_book_row(to, at),
        Extra::Allow { post } => push_line(to, b"Allow: ", method_word(post)),
    }
}

// Appends the line of the place in the list.
fn push_book_row(to: &mut Vec<u8>, at: u32)
    requires { HasRoom to.old MAX_LINE }
    ensures { Appended to.old to.new (head_line (codes "Book-Row: ") (decimal at)) MAX_LINE }
{
    append(to, b"Book-Row: ");
    append_count(to, at);
    append(to, b"\r\n");
}

// Appends the line that ends a connection.
fn push_closing(to: &mut Vec<u8>, last: bool)
    requires { HasRoom to.old MAX_LINE }
    ensures { Appended to.old to.new (closing_line last) MAX_LINE }
{
    if last {
        append(to, b"Connection: close\r\n");
    }
}

// The code of a status.
fn code_of(status: Status) -> StatusCode
    ensures { code_text result ≡ status_text status }
{
    match status {
        Status::Ok => StatusCode::OK,
        Status::BadRequest => StatusCode::BAD_REQUEST,
        Status::NotFound => StatusCode::NOT_FOUND,
        Status::MethodNotAllowed => StatusCode::METHOD_NOT_ALLOWED,
        Status::Conflict => StatusCode::CONFLICT,
        Status::LengthRequired => StatusCode::LENGTH_REQUIRED,
        Status::PayloadTooLarge => StatusCode::PAYLOAD_TOO_LARGE,
        Status::InternalServerError => StatusCode::INTERNAL_SERVER_ERROR,
        Status::ServiceUnavailable => StatusCode::SERVICE_UNAVAILABLE,
    }
}

// The type of a body.
fn media_word(media: Media) -> &'static [u8]
    ensures text { result.now ≡ media_text media }
    ensures short { length result.now ≤ MAX_VALUE }
{
    match media {
        Media::Json => b"application/json",
        Media::Plain => b"text/plain",
        Media::Octets => b"application/octet-stream",
    }
}

// A method that is taken.
fn method_word(post: bool) -> &'static [u8]
    ensures text { result.now ≡ method_text post }
    ensures short { length result.now ≤ MAX_VALUE }
{
    if post { b"POST" } else { b"GET" }
}
