use book_words::{Ask, Name, Question, Want};
use office_wire::{Bad, Frame, OfficeAsk, Routes, frame_with_routes};
use std::alloc::Global;
use std::test::Fail;

// Targets at which nothing is found.
const UNKNOWN: [&[u8]; 32] = [
    b"*",
    b"?/summary",
    b"//",
    b"//acts",
    b"/acts/",
    b"/acts/acts",
    b"/acts/1/",
    b"/acts/4294967296",
    b"/rows",
    b"/rows/",
    b"/rows/-1",
    b"/Acts",
    b"/act",
    b"/%61cts",
    b"/acts%3F",
    b"/summary//",
    b"/batches//",
    b"/batches//sample",
    b"/batches/A/",
    b"/batches/A//sample",
    b"/batches/A/sample/x",
    b"/batches/A/Sample",
    b"/batches/A/packs",
    b"/batches/A/packs/",
    b"/batches/A/packs/x",
    b"/batches/A/packs/1/",
    b"/batches//packs/1",
    b"/packs//",
    b"/packs/1.0",
    b"/packs/000000000000000000001",
    b"/lanes/1/",
    b"/lanes/+1",
];

// Targets at which a sheet is found, and the name of its batch.
const SHEETS: [(&[u8], &[u8]); 7] = [
    (b"/batches/A.b", b"A.b"),
    (b"/batches/..", b".."),
    (b"/batches/A%2Fsample", b"A%2Fsample"),
    (b"/batches/sample", b"sample"),
    (b"/batches/batches", b"batches"),
    (b"/batches/\xc3\xa9", b"\xc3\xa9"),
    (b"/batches/A?/sample", b"A"),
];

// Methods that nothing takes, among them of 15 and 16 bytes.
const METHODS: [&[u8]; 8] = [
    b"get",
    b"Get",
    b"post",
    b"PUT",
    b"GETS",
    b"POS",
    b"POSTPOSTPOSTPOS",
    b"POSTPOSTPOSTPOST",
];

// A request without headers. Where there is no memory it is cut, so that the test fails.
fn request(alloc: Global, method: &[u8], target: &[u8]) -> Vec<u8> {
    let mut bytes = Vec::new(alloc);
    for part in [method, b" ", target, b" HTTP/1.1\r\n\r\n"] {
        let _ = bytes.extend_from_slice(part);
    }
    bytes
}

// What it asks, where it is whole and the connection goes on.
fn asked(routes: &Routes, alloc: Global, method: &[u8], target: &[u8]) -> Option<OfficeAsk> {
    let bytes = request(alloc, method, target);
    match frame_with_routes(routes, alloc, &bytes, false) {
        Frame::Whole(framed) if framed.taken == bytes.len() && !framed.last => Some(framed.what),
        _ => None,
    }
}

// The first target of the table at which something is found.
fn wrong_unknown(routes: &Routes, alloc: Global) -> Option<&'static [u8]> {
    for target in &UNKNOWN {
        if asked(routes, alloc, b"GET", target) != Some(OfficeAsk::Bad(Bad::Path)) {
            return Some(target);
        }
    }
    None
}

// The question for the sheet of a batch.
fn sheet_of(name: &[u8]) -> Option<OfficeAsk> {
    let batch = Name::new(name)?;
    Some(OfficeAsk::Ask(Ask {
        desk: 0,
        request: 0,
        want: Want::Question(Question::Sheet { batch }),
    }))
}

// The first target of the table that isn't told as its sheet.
fn wrong_sheet(routes: &Routes, alloc: Global) -> Option<&'static [u8]> {
    for (target, name) in &SHEETS {
        if asked(routes, alloc, b"GET", target) != sheet_of(name) {
            return Some(target);
        }
    }
    None
}

// The first method of the table that is taken.
fn wrong_method(routes: &Routes, alloc: Global) -> Option<&'static [u8]> {
    for method in &METHODS {
        if !is_not_taken(routes, alloc, method) {
            return Some(method);
        }
    }
    None
}

// Whether a method is taken neither for acts nor for a question.
fn is_not_taken(routes: &Routes, alloc: Global, method: &[u8]) -> bool {
    let act = asked(routes, alloc, method, b"/acts");
    let question = asked(routes, alloc, method, b"/acts/1");
    act == Some(OfficeAsk::Bad(Bad::Method { post: true }))
        && question == Some(OfficeAsk::Bad(Bad::Method { post: false }))
}

#[test]
fn targets_of_every_shape(rt: HostRuntime) -> Result<(), Fail> {
    let routes = Routes::new(rt.alloc())?;
    assert_eq!(rt; wrong_unknown(&routes, rt.alloc()), None);
    assert_eq!(rt; wrong_sheet(&routes, rt.alloc()), None);
    let slashes = vec![in rt.alloc(); b'/'; 8_000]?;
    let told = asked(&routes, rt.alloc(), b"GET", &slashes);
    assert!(rt; told == Some(OfficeAsk::Bad(Bad::Path)));
    Ok(())
}

#[test]
fn methods_of_every_length(rt: HostRuntime) -> Result<(), Fail> {
    let routes = Routes::new(rt.alloc())?;
    assert_eq!(rt; wrong_method(&routes, rt.alloc()), None);
    let long = vec![in rt.alloc(); b'P'; 4_000]?;
    assert!(rt; is_not_taken(&routes, rt.alloc(), &long));
    Ok(())
}
