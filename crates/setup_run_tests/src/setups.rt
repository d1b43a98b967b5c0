use crate::runs::{Way, ends, refusals};
use std::alloc::{AllocError, Global};

// A setup over an empty book, how it ends, and how many rows it leaves.
static SETUPS: [(&[u8], Way, u32); 16] = [
    (b"", Way::SetUp, 0),
    (b"\n# rice\n \t\n", Way::SetUp, 0),
    (b"day 2025-03-03\r\nproduct rice250 250\r\n", Way::SetUp, 2),
    (b"day 2025-03-03\nproduct rice250 250", Way::SetUp, 2),
    // at a last line that lacks its LF, a CR is a byte like another
    (b"day 2025-03-03\nproduct rice250 250\r", Way::BadLine(2), 1),
    // a bad line at the beginning, in the middle and at the end, and one behind lines that say
    // nothing: no line behind it is asked
    (b"wat\nday 2025-03-03\n", Way::BadLine(1), 0),
    (
        b"day 2025-03-03\nwat\nproduct rice250 250\n",
        Way::BadLine(2),
        1,
    ),
    (
        b"day 2025-03-03\nproduct rice250 250\nwat\n",
        Way::BadLine(3),
        2,
    ),
    (
        b"day 2025-03-03\nproduct rice250 250\nwat",
        Way::BadLine(3),
        2,
    ),
    (
        b"\n\n# rice\nday 2025-03-03\n\nwat\nwat\n",
        Way::BadLine(6),
        1,
    ),
    // no lane is set to work
    (b"day 2025-03-03\nwork 1 A\n", Way::BadLine(2), 1),
    (b"work 0 A", Way::BadLine(1), 0),
    // questions and refused commands are answered, and the next is asked
    (
        b"summary\nday 2025-03-03\nsheet A\nproduct rice250 1\nlane 1\nproduct rice250 250\nsample A",
        Way::SetUp,
        2,
    ),
    // a desk asks for acts alone, and one that comes twice acts once
    (
        b"@101 1 day 2025-03-03\n@101 1 day 2025-03-03\n",
        Way::SetUp,
        1,
    ),
    (b"@101 1 summary\n", Way::BadLine(1), 0),
    (b"day 2025-03-03\n@100 1 day 2025-03-04\n", Way::SetUp, 1),
];

// The first setup that ends otherwise.
fn wrong_setup(alloc: Global) -> Option<usize> {
    for place in 0..SETUPS.len() {
        let (setup, way, rows) = &SETUPS[place];
        if ends(alloc, setup) != Some((*way, *rows)) {
            return Some(place);
        }
    }
    None
}

#[test]
fn setups_over_an_empty_book(rt: HostRuntime) -> Result<(), AllocError> {
    assert!(rt; wrong_setup(rt.alloc()).is_none());
    Ok(())
}

// A setup over an empty book, and the lines of it that are refused, each with the refusal's number
// and how many bytes it has.
static REFUSED: [(&[u8], &[(u64, u8, usize)]); 4] = [
    (b"day 2025-03-03\nproduct rice250 250\n", &[]),
    // acts and questions, one of them at a last line that lacks its LF
    (
        b"\nday 2025-03-03\nsheet A\nproduct rice250 1\nsample A",
        &[(3, 14, 7), (4, 11, 17), (5, 14, 8)],
    ),
    // what a desk asks a second time is told again; before its last request it is refused
    (
        b"@101 1 day 2025-03-03\n@101 1 day 2025-03-03\n@101 2 day 2025-03-04\n@101 1 day 2025-03-03\n",
        &[(4, 2, 21)],
    ),
    // none behind a bad line
    (b"close A\nwat\nclose B\n", &[(1, 6, 7)]),
];

// The first setup of which other lines are told.
fn wrong_refusals(alloc: Global) -> Option<usize> {
    for place in 0..REFUSED.len() {
        let (setup, lines) = &REFUSED[place];
        if !refusals(alloc, setup).is_some_and(|told| told.as_slice() == *lines) {
            return Some(place);
        }
    }
    None
}

#[test]
fn refused_lines_are_told(rt: HostRuntime) -> Result<(), AllocError> {
    assert!(rt; wrong_refusals(rt.alloc()).is_none());
    Ok(())
}

// A comment of so many bytes before its end, and whether it is a line.
static COMMENTS: [(usize, &[u8], bool); 6] = [
    (200, b"\n", true),
    (201, b"\n", false),
    // the CR counts, and the LF doesn't
    (199, b"\r\n", true),
    (200, b"\r\n", false),
    (200, b"", true),
    (201, b"", false),
];

// Whether a comment of so many bytes is a line of a setup.
fn is_line(alloc: Global, count: usize, end: &[u8]) -> Option<bool> {
    let mut line = vec![in alloc; b'#'; count].ok()?;
    line.extend_from_slice(end).ok()?;
    match ends(alloc, &line)? {
        (Way::SetUp, 0) => Some(true),
        (Way::BadLine(1), 0) => Some(false),
        _ => None,
    }
}

// The first comment of which something else is said.
fn wrong_comment(alloc: Global) -> Option<usize> {
    for place in 0..COMMENTS.len() {
        let (count, end, wanted) = &COMMENTS[place];
        if is_line(alloc, *count, end) != Some(*wanted) {
            return Some(place);
        }
    }
    None
}

#[test]
fn a_line_has_200_bytes(rt: HostRuntime) -> Result<(), AllocError> {
    assert!(rt; wrong_comment(rt.alloc()).is_none());
    Ok(())
}
