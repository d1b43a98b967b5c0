use crate::saying::EVERY_LINE;
use book_words::Prior;
use script_lines::{Command, Feed, Line, TooLong, Verb, split_line};
use std::alloc::Global;
use std::test::Fail;

// What a line says that comes in two parts, the number of the line after it, and what that one says
// where nothing follows.
fn in_parts(alloc: Global, part: &[u8], rest: &[u8]) -> Result<(Line, u64, Line), Fail> {
    let mut feed = Feed::new(alloc)?;
    feed.begin_line(part)?;
    let line = feed.end_line(EVERY_LINE, rest);
    Ok((line, feed.line_number(), feed.read_last(EVERY_LINE)))
}

const IN_PARTS: &[u8] = b"@101 7 stop 255 opened\r";

// A line comes whole, or in two parts that are cut at each of its places: the first place where it
// says something else.
fn wrong_place(alloc: Global) -> Result<Option<usize>, Fail> {
    let stop = Line::Asks(Command {
        desk: 101,
        request: 7,
        verb: Verb::Stop {
            lane: 255,
            prior: Some(Prior::Opened),
        },
    });
    for place in 0..IN_PARTS.len() {
        let (part, rest) = IN_PARTS.split_at(place);
        if in_parts(alloc, part, rest)? != (stop, 2, Line::Nothing) {
            return Ok(Some(place));
        }
    }
    Ok(None)
}

// What is answered to a second part of a line.
fn more_of(alloc: Global, first: &[u8], then: &[u8]) -> Result<Result<(), TooLong>, Fail> {
    let mut feed = Feed::new(alloc)?;
    feed.begin_line(first)?;
    Ok(feed.begin_line(then))
}

// How many bytes come first, how many then, and whether the line is too long.
const LENGTHS: [(usize, usize, bool); 5] = [
    (0, 200, false),
    (0, 201, true),
    (200, 0, false),
    (199, 1, false),
    (200, 1, true),
];

const COMMENT: [u8; 201] = [b'#'; 201];

// A line has at most 200 bytes: the first length of a first part at which it is otherwise.
fn wrong_length(alloc: Global) -> Result<Option<usize>, Fail> {
    for (first, then, too_long) in LENGTHS {
        let more = more_of(alloc, &COMMENT[..first], &COMMENT[..then])?;
        let (line, _, _) = in_parts(alloc, &COMMENT[..first], &COMMENT[..then])?;
        let says = if too_long { Line::Bad } else { Line::Nothing };
        if more.is_err() != too_long || line != says {
            return Ok(Some(first));
        }
    }
    Ok(None)
}

// Bytes, and the first line of them with what follows.
const FIRST_LINES: [(&[u8], Option<(&[u8], &[u8])>); 5] = [
    (b"", None),
    (b"day\r", None),
    (b"\n", Some((b"", b""))),
    (b"\n\nday", Some((b"", b"\nday"))),
    (b"day\nstop\n", Some((b"day", b"stop\n"))),
];

// The first of these bytes that are split otherwise.
fn wrong_split() -> Option<&'static [u8]> {
    for (bytes, parts) in FIRST_LINES {
        if split_line(bytes) != parts {
            return Some(bytes);
        }
    }
    None
}

#[test]
fn lines_come_from_bytes(rt: HostRuntime) -> Result<(), Fail> {
    assert_eq!(rt; wrong_place(rt.alloc())?, None);
    assert_eq!(rt; wrong_length(rt.alloc())?, None);
    assert_eq!(rt; wrong_split(), None);
    Ok(())
}
