use crate::halls::{CALLS, open_hall, serve};
use disk_core::ListDoor;
use memory_hall::door_of;
use office_door::{DoorEnd, DoorStop};
use std::alloc::Global;
use std::test::Fail;

// Three desks, each on a connection of its own.
const SESSION: [&[u8]; 3] = [
    b"POST /acts HTTP/1.1\r\nContent-Length: 68\r\n\r\n\
{\"act\":\"product\",\"desk\":101,\"request\":1,\"name\":\"a\",\"nominal\":250000}",
    b"POST /acts HTTP/1.1\r\nContent-Length: 68\r\n\r\n\
{\"act\":\"product\",\"desk\":102,\"request\":1,\"name\":\"b\",\"nominal\":250000}",
    b"POST /acts HTTP/1.1\r\nContent-Length: 68\r\n\r\n\
{\"act\":\"product\",\"desk\":103,\"request\":1,\"name\":\"c\",\"nominal\":250000}",
];

const NOTHING: &[u8] = b"";

const ROW_2: &[u8] = b"HTTP/1.1 200 OK\r\nContent-Type: application/json\r\n\
Content-Length: 9\r\nBook-Row: 2\r\n\r\n{\"row\":2}";

const ROW_3: &[u8] = b"HTTP/1.1 200 OK\r\nContent-Type: application/json\r\n\
Content-Length: 9\r\nBook-Row: 3\r\n\r\n{\"row\":3}";

const ROW_4: &[u8] = b"HTTP/1.1 200 OK\r\nContent-Type: application/json\r\n\
Content-Length: 9\r\nBook-Row: 4\r\n\r\n{\"row\":4}";

const NO_DISK: &[u8] = b"HTTP/1.1 500 Internal Server Error\r\nContent-Type: application/json\r\n\
Content-Length: 14\r\n\r\n{\"bad\":\"disk\"}";

// What is seen behind a session: its end, the rows of the book, and what was written to each of the
// connections; nothing to one that didn't come.
struct Seen<'s> {
    served: u32,
    links: u32,
    stop: DoorStop,
    rows: u32,
    written: [&'s [u8]; 3],
}

// A session on which nothing fails, or no more than a read behind the responses.
const WHOLE: [&[u8]; 3] = [ROW_2, ROW_3, ROW_4];

// The call of the door that fails, and what is seen then. A connection makes four calls: it is
// admitted, its request is read, its response is written, and its end is read.
const CALL_FAILS: [Seen<'static>; 14] = [
    // the first isn't admitted
    Seen {
        served: 0,
        links: 0,
        stop: DoorStop::Door,
        rows: 1,
        written: [NOTHING, NOTHING, NOTHING],
    },
    Seen {
        served: 2,
        links: 1,
        stop: DoorStop::Done,
        rows: 3,
        written: [NOTHING, ROW_2, ROW_3],
    },
    // what was asked stands, though the response went out to nobody
    Seen {
        served: 3,
        links: 1,
        stop: DoorStop::Done,
        rows: 4,
        written: [NOTHING, ROW_3, ROW_4],
    },
    Seen {
        served: 3,
        links: 1,
        stop: DoorStop::Done,
        rows: 4,
        written: WHOLE,
    },
    // the second isn't
    Seen {
        served: 1,
        links: 0,
        stop: DoorStop::Door,
        rows: 2,
        written: [ROW_2, NOTHING, NOTHING],
    },
    Seen {
        served: 2,
        links: 1,
        stop: DoorStop::Done,
        rows: 3,
        written: [ROW_2, NOTHING, ROW_3],
    },
    Seen {
        served: 3,
        links: 1,
        stop: DoorStop::Done,
        rows: 4,
        written: [ROW_2, NOTHING, ROW_4],
    },
    Seen {
        served: 3,
        links: 1,
        stop: DoorStop::Done,
        rows: 4,
        written: WHOLE,
    },
    // the third isn't
    Seen {
        served: 2,
        links: 0,
        stop: DoorStop::Door,
        rows: 3,
        written: [ROW_2, ROW_3, NOTHING],
    },
    Seen {
        served: 2,
        links: 1,
        stop: DoorStop::Done,
        rows: 3,
        written: [ROW_2, ROW_3, NOTHING],
    },
    Seen {
        served: 3,
        links: 1,
        stop: DoorStop::Done,
        rows: 4,
        written: [ROW_2, ROW_3, NOTHING],
    },
    Seen {
        served: 3,
        links: 1,
        stop: DoorStop::Done,
        rows: 4,
        written: WHOLE,
    },
    // it isn't told that no other waits
    Seen {
        served: 3,
        links: 0,
        stop: DoorStop::Door,
        rows: 4,
        written: WHOLE,
    },
    // nothing fails
    Seen {
        served: 3,
        links: 0,
        stop: DoorStop::Done,
        rows: 4,
        written: WHOLE,
    },
];

// Whether just these texts were written to the connections of a door.
fn has_written(door: &ListDoor, texts: &[&[u8]; 3]) -> bool {
    for (place, text) in texts.iter().enumerate() {
        if door.written(place).unwrap_or(NOTHING) != *text {
            return false;
        }
    }
    true
}

// Whether a session in which a call of the door fails is seen so.
fn door_fails_right(alloc: Global, call: u32, seen: &Seen) -> Option<bool> {
    let mut door = door_of(alloc, &SESSION, &[call]);
    let hall = open_hall(alloc, &[])?;
    let (end, rows, _) = serve(alloc, hall, &mut door);
    let wanted = DoorEnd {
        served: seen.served,
        links: seen.links,
        stop: seen.stop,
    };
    Some(end == wanted && rows == seen.rows && has_written(&door, &seen.written))
}

// The first call of the door that doesn't come out right.
fn first_wrong(alloc: Global) -> Option<u32> {
    let mut call: u32 = 0;
    for seen in &CALL_FAILS {
        call = call.saturating_add(1);
        if door_fails_right(alloc, call, seen) != Some(true) {
            return Some(call);
        }
    }
    None
}

// What is written where one of the four calls of the disk for a request fails: it is answered by
// 500, and the others get the rows.
const DISK_FAILS: [[&[u8]; 3]; 3] = [
    [NO_DISK, ROW_2, ROW_3],
    [ROW_2, NO_DISK, ROW_3],
    [ROW_2, ROW_3, NO_DISK],
];

// Whether a session in which a call of the disk fails is seen so.
fn disk_fails_right(alloc: Global, call: u32, texts: &[&[u8]; 3]) -> Option<bool> {
    let mut door = door_of(alloc, &SESSION, &[]);
    let hall = open_hall(alloc, &[call])?;
    let (end, rows, faults) = serve(alloc, hall, &mut door);
    let wanted = DoorEnd {
        served: 3,
        links: 0,
        stop: DoorStop::Done,
    };
    Some(end == wanted && rows == 3 && faults == 1 && has_written(&door, texts))
}

// The first call of the disk that doesn't come out right. An append makes four.
fn first_wrong_of_disk(alloc: Global) -> Option<u32> {
    let mut call = CALLS;
    for texts in &DISK_FAILS {
        for _step in 0..4 {
            call = call.saturating_add(1);
            if disk_fails_right(alloc, call, texts) != Some(true) {
                return Some(call);
            }
        }
    }
    None
}

#[test]
fn each_call_fails(rt: HostRuntime) -> Result<(), Fail> {
    assert_eq!(rt; first_wrong(rt.alloc()), None);
    assert_eq!(rt; first_wrong_of_disk(rt.alloc()), None);
    Ok(())
}
