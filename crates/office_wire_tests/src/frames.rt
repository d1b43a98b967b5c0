use book_words::{Act, Ask, Name, Question, Unit, Want};
use office_wire::{
    Bad, Frame, Framed, MAX_HEAD, MAX_HEADERS, OfficeAsk, Routes, frame, frame_with_routes,
};
use std::alloc::{AllocError, Global};
use std::fmt;
use std::test::Fail;

// A product, made by a desk.
const POST: &[u8] = b"POST /acts HTTP/1.1\r\nHost: 127.0.0.1:8080\r\nContent-Length: 68\r\n\r\n\
{\"act\":\"product\",\"desk\":101,\"request\":1,\"name\":\"a\",\"nominal\":250000}";

// How many of its bytes are its head.
const POST_HEAD: usize = 65;

// Requests that are at fault: all their bytes, the fault, and whether the connection ends.
const FAULTS: [(&[u8], Bad, bool); 36] = [
    (b"GET /summary HTTP/1.2\r\n\r\n", Bad::Head, true),
    (b"GET  /summary HTTP/1.1\r\n\r\n", Bad::Head, true),
    (b"GET /summary HTTP/1.1\r\nA : b\r\n\r\n", Bad::Head, true),
    (b"GET /\xff HTTP/1.1\n\n", Bad::Head, true),
    (b"\r\nno head\n\n", Bad::Head, true),
    (
        b"POST /acts HTTP/1.1\r\nTransfer-Encoding: chunked\r\n\r\n",
        Bad::Coding,
        true,
    ),
    (
        b"POST /acts HTTP/1.1\r\ntransfer-encoding: x\r\nContent-Length: 5000\r\n\r\n",
        Bad::Coding,
        true,
    ),
    (
        b"POST /acts HTTP/1.1\r\nContent-Length: 5\r\nContent-Length: 6\r\n\r\n",
        Bad::Length,
        true,
    ),
    (
        b"POST /acts HTTP/1.1\r\nContent-Length: 5000\r\ncontent-length: 6\r\n\r\n",
        Bad::Length,
        true,
    ),
    (
        b"POST /acts HTTP/1.1\r\nContent-Length: 12345678901\r\n\r\n",
        Bad::Length,
        true,
    ),
    (
        b"POST /acts HTTP/1.1\r\nContent-Length:\r\n\r\n",
        Bad::Length,
        true,
    ),
    (
        b"POST /acts HTTP/1.1\r\nContent-Length: +5\r\n\r\n",
        Bad::Length,
        true,
    ),
    (
        b"POST /acts HTTP/1.1\r\nContent-Length: 5, 5\r\n\r\n",
        Bad::Length,
        true,
    ),
    (
        b"POST /acts HTTP/1.1\r\nContent-Length: 4097\r\n\r\n",
        Bad::Large,
        true,
    ),
    (
        b"GET /nothing HTTP/1.1\r\nCONTENT-LENGTH: 9999999999\r\n\r\n",
        Bad::Large,
        true,
    ),
    (b"GET / HTTP/1.1\r\n\r\n", Bad::Path, false),
    (b"GET summary HTTP/1.1\r\n\r\n", Bad::Path, false),
    (
        b"GET http://hall/summary HTTP/1.1\r\n\r\n",
        Bad::Path,
        false,
    ),
    (b"GET /summary/ HTTP/1.1\r\n\r\n", Bad::Path, false),
    (b"GET /batches HTTP/1.1\r\n\r\n", Bad::Path, false),
    (b"GET /batches/ HTTP/1.1\r\n\r\n", Bad::Path, false),
    (b"GET /batches/A/samples HTTP/1.1\r\n\r\n", Bad::Path, false),
    (b"GET /batches/A/sample/ HTTP/1.1\r\n\r\n", Bad::Path, false),
    (
        b"GET /batches/123456789012345678901234567890123 HTTP/1.1\r\n\r\n",
        Bad::Path,
        false,
    ),
    (b"GET /packs/4294967296 HTTP/1.1\r\n\r\n", Bad::Path, false),
    (b"GET /packs/1/sample HTTP/1.1\r\n\r\n", Bad::Path, false),
    (b"GET /lanes/256 HTTP/1.1\r\n\r\n", Bad::Path, false),
    (
        b"PUT /acts?/summary HTTP/1.1\r\n\r\n",
        Bad::Method { post: true },
        false,
    ),
    (
        b"GET /acts HTTP/1.1\r\nContent-Length: 2\r\n\r\n{}",
        Bad::Method { post: true },
        false,
    ),
    (
        b"HEAD /summary HTTP/1.1\r\n\r\n",
        Bad::Method { post: false },
        false,
    ),
    (
        b"get /lanes/1 HTTP/1.1\r\n\r\n",
        Bad::Method { post: false },
        false,
    ),
    (
        b"POST /batches/A HTTP/1.1\r\nContent-Length: 2\r\n\r\n{}",
        Bad::Method { post: false },
        false,
    ),
    (b"POST /acts HTTP/1.1\r\n\r\n", Bad::NoLength, false),
    (b"POST /acts HTTP/1.0\r\n\r\n", Bad::NoLength, true),
    (
        b"POST /acts HTTP/1.1\r\nContent-Length: 0\r\n\r\n",
        Bad::Body,
        false,
    ),
    (
        b"POST /acts HTTP/1.1\r\nContent-Length: 38\r\n\r\n\
{\"act\":\"weigh\",\"desk\":101,\"request\":1}",
        Bad::Body,
        false,
    ),
];

// Requests for the balance, and whether the connection ends behind the response.
const LASTS: [(&[u8], bool); 9] = [
    (b"GET /summary HTTP/1.1\r\n\r\n", false),
    (b"\r\n\nGET /summary HTTP/1.1\n\n", false),
    (b"GET /summary HTTP/1.0\r\n\r\n", true),
    (b"GET /summary HTTP/1.1\r\nConnection: close\r\n\r\n", true),
    (
        b"GET /summary HTTP/1.1\r\nCONNECTION: \tCLOSE \r\n\r\n",
        true,
    ),
    (
        b"GET /summary HTTP/1.1\r\nConnection: keep-alive\r\n\r\n",
        false,
    ),
    (
        b"GET /summary HTTP/1.1\r\nConnection: close, x\r\n\r\n",
        false,
    ),
    (
        b"GET /summary?/acts?x HTTP/1.1\r\nProxy-Connection: close\r\n\r\n",
        false,
    ),
    (
        b"GET /summary HTTP/1.1\r\nContent-Length: 3\r\ncontent-length: 003\r\n\r\nabc",
        false,
    ),
];

// A fault with so many bytes.
fn fault(taken: usize, bad: Bad, last: bool) -> Frame {
    Frame::Whole(Framed {
        taken,
        what: OfficeAsk::Bad(bad),
        last,
    })
}

// A question with so many bytes.
fn question(taken: usize, question: Question, last: bool) -> Frame {
    let ask = Ask {
        desk: 0,
        request: 0,
        want: Want::Question(question),
    };
    Frame::Whole(Framed {
        taken,
        what: OfficeAsk::Ask(ask),
        last,
    })
}

// The first request of the table whose fault isn't told so.
fn wrong_fault(routes: &Routes, alloc: Global) -> Option<&'static [u8]> {
    for (bytes, bad, last) in &FAULTS {
        if frame_with_routes(routes, alloc, bytes, false) != fault(bytes.len(), *bad, *last) {
            return Some(bytes);
        }
    }
    None
}

// The first request of the table whose end of the connection isn't told so.
fn wrong_last(routes: &Routes, alloc: Global) -> Option<&'static [u8]> {
    for (bytes, last) in &LASTS {
        let asked = question(bytes.len(), Question::Summary, *last);
        if frame_with_routes(routes, alloc, bytes, false) != asked {
            return Some(bytes);
        }
    }
    None
}

// Requests that ask questions about no batch.
const QUESTIONS: [(&[u8], Question); 6] = [
    (
        b"GET /packs/4294967295 HTTP/1.1\r\n\r\n",
        Question::Pack {
            pack: 4_294_967_295,
        },
    ),
    (
        b"GET /packs/007 HTTP/1.1\r\n\r\n",
        Question::Pack { pack: 7 },
    ),
    (
        b"GET /lanes/17 HTTP/1.1\r\n\r\n",
        Question::Lane { lane: 17 },
    ),
    (
        b"GET /lanes/255?day=1/2 HTTP/1.1\r\n\r\n",
        Question::Lane { lane: 255 },
    ),
    (
        b"GET /acts/4294967295 HTTP/1.1\r\n\r\n",
        Question::Rows {
            after: 4_294_967_295,
        },
    ),
    (
        b"GET /rows/0 HTTP/1.1\r\n\r\n",
        Question::Shipment { after: 0 },
    ),
];

// Requests that ask questions about the batch A.
fn batch_questions(batch: Name) -> [(&'static [u8], Question); 3] {
    [
        (
            b"GET /batches/A HTTP/1.1\r\nHost: 127.0.0.1:8080\r\nUser-Agent: curl/8.5.0\r\n\
Accept: */*\r\n\r\n",
            Question::Sheet { batch },
        ),
        (
            b"GET /batches/A/sample HTTP/1.1\r\n\r\n",
            Question::Sample { batch },
        ),
        (
            b"GET /batches/A/packs/4294967295 HTTP/1.1\r\n\r\n",
            Question::Packs {
                batch,
                after: 4_294_967_295,
            },
        ),
    ]
}

// The first of some requests that isn't told as its question.
fn wrong_among(
    routes: &Routes,
    alloc: Global,
    rows: &[(&'static [u8], Question)],
) -> Option<&'static [u8]> {
    for (bytes, asked) in rows {
        if frame_with_routes(routes, alloc, bytes, true) != question(bytes.len(), *asked, false) {
            return Some(bytes);
        }
    }
    None
}

// The first request that isn't told as its question.
fn wrong_question(routes: &Routes, alloc: Global, batch: Name) -> Option<&'static [u8]> {
    wrong_among(routes, alloc, &QUESTIONS).or(wrong_among(routes, alloc, &batch_questions(batch)))
}

// What a part of the POST is at the end of the input.
fn cut_post(size: usize) -> Frame {
    if size == 0 {
        Frame::Nothing
    } else if size < POST_HEAD {
        fault(size, Bad::Head, true)
    } else {
        fault(size, Bad::Short, true)
    }
}

// The first size of a part of the POST that isn't told so.
fn wrong_cut(routes: &Routes, alloc: Global) -> Option<usize> {
    for size in 0..POST.len() {
        let part = POST.split_at(size).0;
        let cut = frame_with_routes(routes, alloc, part, true);
        if frame_with_routes(routes, alloc, part, false) != Frame::More || cut != cut_post(size) {
            return Some(size);
        }
    }
    None
}

// A request with so many headers. Where there is no memory it is cut, so that the test fails.
fn with_headers(alloc: Global, count: usize) -> Vec<u8> {
    let mut bytes = Vec::new(alloc);
    let _ = bytes.extend_from_slice(b"GET /summary HTTP/1.1\n");
    for _turn in 0..count {
        let _ = bytes.extend_from_slice(b"A:b\n");
    }
    let _ = bytes.extend_from_slice(b"\n");
    bytes
}

// What so many equal bytes are.
fn told_of(alloc: Global, byte: u8, count: usize, ended: bool) -> Result<Frame, AllocError> {
    let bytes = vec![in alloc; byte; count]?;
    Ok(frame(alloc, &bytes, ended))
}

#[test]
fn each_fault(rt: HostRuntime) -> Result<(), Fail> {
    let routes = Routes::new(rt.alloc())?;
    assert_eq!(rt; wrong_fault(&routes, rt.alloc()), None);
    assert_eq!(rt; wrong_last(&routes, rt.alloc()), None);
    assert_eq!(rt; wrong_cut(&routes, rt.alloc()), None);
    Ok(())
}

#[test]
fn each_ask(rt: HostRuntime) -> Result<(), Fail> {
    let routes = Routes::new(rt.alloc())?;
    let batch = Name::new(b"A".as_slice()).ok_or(fmt::Error)?;
    assert_eq!(rt; wrong_question(&routes, rt.alloc(), batch), None);
    let name = Name::new(b"a".as_slice()).ok_or(fmt::Error)?;
    let act = Act::PutProduct {
        name,
        nominal: 250_000,
        unit: Unit::Mass,
    };
    let ask = Ask {
        desk: 101,
        request: 1,
        want: Want::Act(act),
    };
    let framed = Framed {
        taken: POST.len(),
        what: OfficeAsk::Ask(ask),
        last: false,
    };
    assert!(rt; frame(rt.alloc(), POST, false) == Frame::Whole(framed));
    Ok(())
}

#[test]
fn each_limit(rt: HostRuntime) -> Result<(), Fail> {
    let most = with_headers(rt.alloc(), MAX_HEADERS);
    assert!(rt; frame(rt.alloc(), &most, false) == question(most.len(), Question::Summary, false));
    let many = with_headers(rt.alloc(), MAX_HEADERS + 1);
    assert!(rt; frame(rt.alloc(), &many, false) == fault(many.len(), Bad::Head, true));
    assert!(rt; told_of(rt.alloc(), b'a', MAX_HEAD - 1, false)? == Frame::More);
    assert!(rt; told_of(rt.alloc(), b'a', MAX_HEAD, false)? == fault(MAX_HEAD, Bad::Head, true));
    assert!(rt; told_of(rt.alloc(), b'\n', MAX_HEAD - 1, false)? == Frame::More);
    assert!(rt; told_of(rt.alloc(), b'\n', MAX_HEAD - 1, true)? == Frame::Nothing);
    assert!(rt; told_of(rt.alloc(), b'\n', MAX_HEAD, true)? == fault(MAX_HEAD, Bad::Head, true));
    Ok(())
}
