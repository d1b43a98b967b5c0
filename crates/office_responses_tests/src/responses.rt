use book_words::AskError;
use office_responses::{REPLY_ROOM, bad_into, reply_into};
use office_wire::Bad;
use std::alloc::{AllocError, Global};
use std::test::Fail;

// A fault of a request, and the response.
struct FaultCase {
    bad: Bad,
    last: bool,
    text: &'static [u8],
}

const FAULT_CASES: [FaultCase; 9] = [
    FaultCase {
        bad: Bad::Head,
        last: true,
        text: b"HTTP/1.1 400 Bad Request\r\nContent-Type: application/json\r\n\
Content-Length: 14\r\nConnection: close\r\n\r\n{\"bad\":\"head\"}",
    },
    FaultCase {
        bad: Bad::Coding,
        last: true,
        text: b"HTTP/1.1 411 Length Required\r\nContent-Type: application/json\r\n\
Content-Length: 16\r\nConnection: close\r\n\r\n{\"bad\":\"coding\"}",
    },
    FaultCase {
        bad: Bad::Length,
        last: true,
        text: b"HTTP/1.1 400 Bad Request\r\nContent-Type: application/json\r\n\
Content-Length: 16\r\nConnection: close\r\n\r\n{\"bad\":\"length\"}",
    },
    FaultCase {
        bad: Bad::Large,
        last: true,
        text: b"HTTP/1.1 413 Payload Too Large\r\nContent-Type: application/json\r\n\
Content-Length: 15\r\nConnection: close\r\n\r\n{\"bad\":\"large\"}",
    },
    FaultCase {
        bad: Bad::Short,
        last: true,
        text: b"HTTP/1.1 400 Bad Request\r\nContent-Type: application/json\r\n\
Content-Length: 15\r\nConnection: close\r\n\r\n{\"bad\":\"short\"}",
    },
    FaultCase {
        bad: Bad::Path,
        last: false,
        text: b"HTTP/1.1 404 Not Found\r\nContent-Type: application/json\r\n\
Content-Length: 14\r\n\r\n{\"bad\":\"path\"}",
    },
    FaultCase {
        bad: Bad::Method { post: false },
        last: false,
        text: b"HTTP/1.1 405 Method Not Allowed\r\nContent-Type: application/json\r\n\
Content-Length: 16\r\nAllow: GET\r\n\r\n{\"bad\":\"method\"}",
    },
    FaultCase {
        bad: Bad::NoLength,
        last: false,
        text: b"HTTP/1.1 411 Length Required\r\nContent-Type: application/json\r\n\
Content-Length: 18\r\n\r\n{\"bad\":\"nolength\"}",
    },
    FaultCase {
        bad: Bad::Body,
        last: false,
        text: b"HTTP/1.1 400 Bad Request\r\nContent-Type: application/json\r\n\
Content-Length: 14\r\n\r\n{\"bad\":\"body\"}",
    },
];

const NO_MEMORY: &[u8] = b"HTTP/1.1 503 Service Unavailable\r\n\
Content-Type: application/json\r\nContent-Length: 16\r\n\r\n{\"bad\":\"memory\"}";

const DISK_FAULT: &[u8] = b"HTTP/1.1 500 Internal Server Error\r\n\
Content-Type: application/json\r\nContent-Length: 14\r\nConnection: close\r\n\r\n\
{\"bad\":\"disk\"}";

// The response to a fault of form.
fn refuse(alloc: Global, case: &FaultCase) -> Result<Vec<u8>, AllocError> {
    let mut to = Vec::with_capacity(alloc, REPLY_ROOM)?;
    bad_into(&case.bad, case.last, &mut to);
    Ok(to)
}

// The response to an ask for which there is no memory.
fn lack_memory(alloc: Global) -> Result<Vec<u8>, AllocError> {
    let mut to = Vec::with_capacity(alloc, REPLY_ROOM)?;
    reply_into(&Err(AskError::NoMemory), false, &mut to);
    Ok(to)
}

// The response to an ask at which the disk failed.
fn fail_disk(alloc: Global) -> Result<Vec<u8>, AllocError> {
    let mut to = Vec::with_capacity(alloc, REPLY_ROOM)?;
    reply_into(&Err(AskError::DiskFault), true, &mut to);
    Ok(to)
}

#[test]
fn each_fault_of_form(rt: HostRuntime) -> Result<(), Fail> {
    for case in &FAULT_CASES {
        let text = refuse(rt.alloc(), case)?;
        assert_eq!(rt; text.as_slice(), case.text);
    }
    Ok(())
}

#[test]
fn faults_of_the_hall(rt: HostRuntime) -> Result<(), Fail> {
    let text = lack_memory(rt.alloc())?;
    assert_eq!(rt; text.as_slice(), NO_MEMORY);
    let text = fail_disk(rt.alloc())?;
    assert_eq!(rt; text.as_slice(), DISK_FAULT);
    Ok(())
}
