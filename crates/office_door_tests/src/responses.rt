use crate::halls::{empty_hall, open_hall, serve};
use memory_hall::door_of;
use office_door::{DoorEnd, DoorStop};
use std::alloc::Global;
use std::test::Fail;

// Two copies of the request for one product, one behind the other.
const TWICE: &[u8] = b"POST /acts HTTP/1.1\r\nHost: 127.0.0.1:8080\r\nContent-Length: 68\r\n\r\n\
{\"act\":\"product\",\"desk\":101,\"request\":1,\"name\":\"a\",\"nominal\":250000}\
POST /acts HTTP/1.1\r\nHost: 127.0.0.1:8080\r\nContent-Length: 68\r\n\r\n\
{\"act\":\"product\",\"desk\":101,\"request\":1,\"name\":\"a\",\"nominal\":250000}";

// Both are answered by the row of the first.
const ROW_TWICE: &[u8] = b"HTTP/1.1 200 OK\r\nContent-Type: application/json\r\n\
Content-Length: 9\r\nBook-Row: 2\r\n\r\n{\"row\":2}\
HTTP/1.1 200 OK\r\nContent-Type: application/json\r\n\
Content-Length: 9\r\nBook-Row: 2\r\n\r\n{\"row\":2}";

// The request alone, and how many of its bytes are its head.
const ONE: &[u8] = b"POST /acts HTTP/1.1\r\nHost: 127.0.0.1:8080\r\nContent-Length: 68\r\n\r\n\
{\"act\":\"product\",\"desk\":101,\"request\":1,\"name\":\"a\",\"nominal\":250000}";

const ONE_HEAD: usize = 65;

const NOTHING: &[u8] = b"";

const BAD_HEAD: &[u8] = b"HTTP/1.1 400 Bad Request\r\nContent-Type: application/json\r\n\
Content-Length: 14\r\nConnection: close\r\n\r\n{\"bad\":\"head\"}";

const SHORT: &[u8] = b"HTTP/1.1 400 Bad Request\r\nContent-Type: application/json\r\n\
Content-Length: 15\r\nConnection: close\r\n\r\n{\"bad\":\"short\"}";

// The request with its length told twice.
const LENGTH_TWICE: &[u8] = b"POST /acts HTTP/1.1\r\nHost: 127.0.0.1:8080\r\n\
Content-Length: 68\r\nContent-Length: 68\r\n\r\n\
{\"act\":\"product\",\"desk\":101,\"request\":1,\"name\":\"a\",\"nominal\":250000}";

const ROW: &[u8] = b"HTTP/1.1 200 OK\r\nContent-Type: application/json\r\n\
Content-Length: 9\r\nBook-Row: 2\r\n\r\n{\"row\":2}";

const LANE_17: &[u8] = b"GET /lanes/17 HTTP/1.1\r\n\r\n";

const NO_LANE: &[u8] = b"HTTP/1.1 409 Conflict\r\nContent-Type: application/json\r\n\
Content-Length: 51\r\nBook-Row: 0\r\n\r\n\
{\"at\":0,\"kept\":\"\",\"name\":\"LaneNumber\",\"refused\":16}";

// Whether a door was served to its end, with so many requests and without a fault.
fn is_done(end: DoorEnd, served: u32) -> bool {
    end == DoorEnd {
        served,
        links: 0,
        stop: DoorStop::Done,
    }
}

// The second copy of a request acts no more, and is told what the first was.
fn twice_right(alloc: Global) -> Option<bool> {
    let mut door = door_of(alloc, &[TWICE], &[]);
    let hall = open_hall(alloc, &[])?;
    let (end, rows, _) = serve(alloc, hall, &mut door);
    Some(is_done(end, 2) && rows == 2 && door.written(0) == Some(ROW_TWICE))
}

// Two lengths that are the same are one.
fn length_right(alloc: Global) -> Option<bool> {
    let mut door = door_of(alloc, &[LENGTH_TWICE], &[]);
    let hall = open_hall(alloc, &[])?;
    let (end, rows, _) = serve(alloc, hall, &mut door);
    Some(is_done(end, 1) && rows == 2 && door.written(0) == Some(ROW))
}

// What is written where the request for one product is cut behind so many bytes, and then ends.
fn cut_response(size: usize) -> &'static [u8] {
    if size == 0 {
        NOTHING
    } else if size < ONE_HEAD {
        BAD_HEAD
    } else {
        SHORT
    }
}

// A request that is cut is at fault, and no part of it acts.
fn cut_right(alloc: Global, size: usize) -> Option<bool> {
    let part = ONE.get(..size)?;
    let mut door = door_of(alloc, &[part], &[]);
    let hall = open_hall(alloc, &[])?;
    let (end, rows, _) = serve(alloc, hall, &mut door);
    let served = if size == 0 { 0 } else { 1 };
    Some(is_done(end, served) && rows == 1 && door.written(0) == Some(cut_response(size)))
}

// The first size of a part of the request for which that isn't so.
fn wrong_cut(alloc: Global) -> Option<usize> {
    for size in 0..ONE.len() {
        if cut_right(alloc, size) != Some(true) {
            return Some(size);
        }
    }
    None
}

// A lane that there isn't is refused over a book without a row.
fn lane_right(alloc: Global) -> Option<bool> {
    let mut door = door_of(alloc, &[LANE_17], &[]);
    let hall = empty_hall(alloc, &[])?;
    let (end, rows, _) = serve(alloc, hall, &mut door);
    Some(is_done(end, 1) && rows == 0 && door.written(0) == Some(NO_LANE))
}

#[test]
fn each_request_is_answered(rt: HostRuntime) -> Result<(), Fail> {
    assert!(rt; twice_right(rt.alloc()) == Some(true));
    assert!(rt; length_right(rt.alloc()) == Some(true));
    assert!(rt; lane_right(rt.alloc()) == Some(true));
    Ok(())
}

#[test]
fn each_cut_request_is_at_fault(rt: HostRuntime) -> Result<(), Fail> {
    assert_eq!(rt; wrong_cut(rt.alloc()), None);
    Ok(())
}
