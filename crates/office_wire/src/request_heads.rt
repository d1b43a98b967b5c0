ghost use Rattle.std.specs.Prelude.{◌≡◌, List, All, None, length, map, IfSome, IfNone};
ghost use Rattle.httparse.specs.declared.spans.HeaderSpan as headers;
ghost use Rattle.httparse.specs.Grammar.{RequestHead};
ghost use Rattle.httparse.specs.Spans.{IsHeaderWithin, IsRequestAt, header_bytes, span_bytes};
ghost use Rattle.office_wire.specs.Frames.{IsHeadOf, allowed_size, size_of};
ghost use Rattle.office_wire.specs.HeadParts.{IsWholeHead, Says, SaysHeadOf};

use crate::headers::{is_closing, is_coded, size_given};
use crate::limits::{MAX_BODY, MAX_HEADERS};
use crate::types::Bad;
use httparse::Status;
use httparse::spans::{EMPTY_HEADER_SPAN, HeaderSpan, RequestSpans, parse_request};

/// What the head of a request says.
#[derive(Clone, Copy)]
pub struct Said<'t> {
    pub method: &'t [u8],
    pub target: &'t str,
    /// The length of the body, where one is given, or what is wrong with it.
    pub size: Result<Option<usize>, Bad>,
    /// Whether the connection ends behind the response.
    pub last: bool,
}

/// What a head text says; `None` where it isn't a head with no more headers than there may be.
pub fn read_head(text: &[u8]) -> Option<Said<'_>>
    ensures said { IfSome result (SaysHeadOf text.now) }
    ensures missing { IfNone result (IsHeadOf text.now None) }
{
    let mut room = [EMPTY_HEADER_SPAN; MAX_HEADERS];
    let spans = find_parts(text, &mut room)?;
    Some(read_parts(text, &room, &spans))
}

// Where the parts of a head are, where the whole text is one.
fn find_parts(text: &[u8], room: &mut [HeaderSpan]) -> Option<RequestSpans>
    requires { length room.old ≡ MAX_HEADERS }
    ensures found { IfSome result (IsWholeHead text.now room.new) }
    ensures missing { IfNone result (IsHeadOf text.now None) }
{
    match parse_request(text, room) {
        Ok(Status::Complete(spans)) if spans.len == text.len() => Some(spans),
        Ok(Status::Complete(_)) => None,
        Ok(Status::Partial) => None,
        Err(_) => None,
    }
}

// What the parts of a head say.
fn read_parts<'t>(text: &'t [u8], room: &[HeaderSpan], spans: &RequestSpans) -> Said<'t>
    requires { IsWholeHead text.now room.now spans.now }
    ensures { (head : RequestHead) → IsRequestAt text.now room.now spans.now head
        → Says result head }
{
    let headers = room.split_at(spans.headers).0;
    Said {
        method: spans.method.of(text),
        target: target_of(text, spans),
        size: size_of(text, headers),
        last: spans.version == 0 || is_closing(text, headers),
    }
}

// The target of a head, which is a text.
fn target_of<'t>(text: &'t [u8], spans: &RequestSpans) -> &'t str
    requires { (room : List headers.HeaderSpan) × IsWholeHead text.now room spans.now }
    ensures { result.now ≡ span_bytes text.now spans.now.path }
{
    str::from_utf8(spans.path.of(text)).unwrap()
}

// The length of a body, where one is given, or what is wrong with it.
fn size_of(text: &[u8], headers: &[HeaderSpan]) -> Result<Option<usize>, Bad>
    requires { All (IsHeaderWithin (length text.now)) headers.now }
    ensures { result ≡ size_of (map (header_bytes text.now) headers.now) }
{
    if is_coded(text, headers) {
        return Err(Bad::Coding);
    }
    allowed_size(size_given(text, headers))
}

// A length that a body may have.
fn allowed_size(given: Option<Option<u64>>) -> Result<Option<usize>, Bad>
    ensures { result ≡ allowed_size given }
{
    match given {
        None => Err(Bad::Length),
        Some(None) => Ok(None),
        Some(Some(size)) if size <= MAX_BODY as u64 => Ok(Some(size as usize)),
        Some(Some(_)) => Err(Bad::Large),
    }
}
