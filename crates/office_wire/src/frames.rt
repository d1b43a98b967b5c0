ghost use Rattle.std.specs.Prelude.{◌≡◌, ◌≤◌, false, is_some, length, take};
ghost use Rattle.httparse.specs.Grammar.{RequestHead};
ghost use Rattle.office_wire.specs.Frames.{frame_at_end, frame_by_size, frame_without_head, last_fault, part_of_body, whole_request, office_ask, MayTellRouted, MayFrameRouted, TellsFrame, TellsRoutedFrame, TellsSplitRoutedFrame};
ghost use Rattle.office_wire.specs.HeadParts.{Says};
ghost use Rattle.office_wire.specs.Routes.{route_of};

use crate::asks::office_ask;
use crate::head_size::{are_newlines, head_size};
use crate::limits::MAX_HEAD;
use crate::request_heads::{Said, read_head};
use crate::routes::route_of;
use crate::types::{Bad, Frame, Framed, OfficeAsk};
use office_routes::Routes;
use std::alloc::Global;

/// What the bytes of a connection begin with that weren't taken yet: a request and what it asks, or
/// its first fault of form. `ended` says that the input has no more bytes. It makes the routes of
/// the office, which take memory; where there is none, this is what is told in place of an ask.
pub fn frame(alloc: Global, buffer: &[u8], ended: bool) -> Frame
    ensures { TellsRoutedFrame false buffer.now ended result }
{
    match Routes::new(alloc) {
        Ok(routes) => frame_if_routed(Some(&routes), alloc, buffer, ended),
        Err(_) => frame_if_routed(None, alloc, buffer, ended),
    }
}

/// The same with routes that are there. It takes memory for the body of an act, and for a method of
/// more than 15 bytes, which needn't be there.
pub fn frame_with_routes(routes: &Routes, alloc: Global, buffer: &[u8], ended: bool) -> Frame
    ensures { TellsFrame buffer.now ended result }
{
    frame_if_routed(Some(routes), alloc, buffer, ended)
}

// What bytes begin with, by the routes of the office, where there was memory for them.
fn frame_if_routed(routes: Option<&Routes>, alloc: Global, buffer: &[u8], ended: bool) -> Frame
    ensures { TellsRoutedFrame (is_some routes.entry) buffer.now ended result }
{
    match head_size(first_bytes(buffer)) {
        Some(size) => {
            let (text, rest) = buffer.split_at(size);
            split_frame(routes, alloc, text, rest, ended)
        }
        None => frame_without_head(buffer, ended),
    }
}

// The bytes within which a head text lies.
fn first_bytes(buffer: &[u8]) -> &[u8]
    ensures { result.now ≡ take MAX_HEAD buffer.now }
{
    if buffer.len() <= MAX_HEAD {
        return buffer;
    }
    buffer.split_at(MAX_HEAD).0
}

// What bytes begin with that hold no head text where one would have to be.
fn frame_without_head(buffer: &[u8], ended: bool) -> Frame
    ensures { result ≡ frame_without_head buffer.now ended }
{
    if buffer.len() >= MAX_HEAD {
        last_fault(MAX_HEAD, Bad::Head)
    } else if ended {
        frame_at_end(buffer)
    } else {
        Frame::More
    }
}

// What bytes begin with that hold no head text, at the end of the input.
fn frame_at_end(buffer: &[u8]) -> Frame
    ensures { result ≡ frame_at_end buffer.now }
{
    if are_newlines(buffer) {
        Frame::Nothing
    } else {
        last_fault(buffer.len(), Bad::Head)
    }
}

// A fault of so many bytes, behind which the connection ends.
fn last_fault(taken: usize, fault: Bad) -> Frame
    ensures { result ≡ last_fault taken fault }
{
    Frame::Whole(Framed {
        taken,
        what: OfficeAsk::Bad(fault),
        last: true,
    })
}

// What a head text and the bytes behind it are.
fn split_frame(
    routes: Option<&Routes>,
    alloc: Global,
    text: &[u8],
    rest: &[u8],
    ended: bool,
) -> Frame
    requires { length text.now ≤ MAX_HEAD }
    ensures { TellsSplitRoutedFrame (is_some routes.entry) text.now rest.now ended result }
{
    match read_head(text) {
        Some(said) => frame_by_size(routes, alloc, &said, text.len(), rest, ended),
        None => last_fault(text.len(), Bad::Head),
    }
}

// What a head of so many bytes and the bytes behind it are.
fn frame_by_size(
    routes: Option<&Routes>,
    alloc: Global,
    said: &Said,
    size: usize,
    rest: &[u8],
    ended: bool,
) -> Frame
    requires { size ≤ MAX_HEAD }
    ensures { (head : RequestHead) → Says said.now head
        → MayFrameRouted (is_some routes.entry) (frame_by_size said.now.size head size rest.now ended) result }
{
    match said.size {
        Err(fault) => last_fault(size, fault),
        Ok(given) if given.unwrap_or(0) <= rest.len() => {
            let body = rest.split_at(given.unwrap_or(0)).0;
            whole_request(routes, alloc, said, size, given, body)
        }
        Ok(_) => part_of_body(size, rest, ended),
    }
}

// The request of a head of so many bytes and of its body.
fn whole_request(
    routes: Option<&Routes>,
    alloc: Global,
    said: &Said,
    size: usize,
    given: Option<usize>,
    body: &[u8],
) -> Frame
    requires { size ≤ MAX_HEAD }
    ensures { (head : RequestHead) → Says said.now head
        → MayFrameRouted (is_some routes.entry) (whole_request head size given body.now) result }
{
    Frame::Whole(Framed {
        taken: size + body.len(),
        what: asked(routes, alloc, said, given, body),
        last: said.last,
    })
}

// What a request asks, by its head and its body.
fn asked(
    routes: Option<&Routes>,
    alloc: Global,
    said: &Said,
    given: Option<usize>,
    body: &[u8],
) -> OfficeAsk
    ensures { MayTellRouted (is_some routes.entry)
        (office_ask (route_of said.now.target.now) said.now.method.now given body.now) result }
{
    match routes {
        Some(routes) => {
            let route = route_of(routes, said.target);
            office_ask(alloc, route, said.method, given, body)
        }
        None => OfficeAsk::NoMemory,
    }
}

// A head of so many bytes, and behind it a part of its body.
fn part_of_body(size: usize, rest: &[u8], ended: bool) -> Frame
    requires { size ≤ MAX_HEAD }
    ensures { result ≡ part_of_body size rest.now ended }
{
    if ended {
        last_fault(size + rest.len(), Bad::Short)
    } else {
        Frame::More
    }
}
