use crate::saying::{DAY, name, says};
use book_words::Name;
use script_lines::{Allowed, Command, Line, MAX_LINE, Verb, read_ended_line};
use std::test::Fail;

const ACTS_ALONE: Allowed = Allowed {
    questions: false,
    lanes: 0,
};

// A command that names no desk.
fn asks(verb: Verb) -> Line {
    Line::Asks(Command {
        desk: 0,
        request: 0,
        verb,
    })
}

// Names are any bytes.
const NAMES: [(&[u8], &[u8]); 6] = [
    (
        b"open 0123456789abcdef0123456789abcdef rice250",
        b"0123456789abcdef0123456789abcdef",
    ),
    (b"open #1 rice250", b"#1"),
    (b"open @1 rice250", b"@1"),
    (b"open A\0 rice250", b"A\0"),
    (b"open \xFF\xC3 rice250", b"\xFF\xC3"),
    (b"open b\r rice250", b"b\r"),
];

const SUMMARY: Line = Line::Asks(Command {
    desk: 0,
    request: 0,
    verb: Verb::Summary,
});

// Lines without a word and comments say nothing. A return before the end of a line is passed over:
// what a line says that ends in LF, and what it says as a last one that lacks it.
const ENDED_AND_LAST: [(&[u8], Line, Line); 15] = [
    (b"", Line::Nothing, Line::Nothing),
    (b" ", Line::Nothing, Line::Nothing),
    (b"\t \t", Line::Nothing, Line::Nothing),
    (b"#", Line::Nothing, Line::Nothing),
    (b"#weigh 1 251", Line::Nothing, Line::Nothing),
    (b" \t# day", Line::Nothing, Line::Nothing),
    (b"##\xFF\0", Line::Nothing, Line::Nothing),
    (b"#@101 1 stop 1", Line::Nothing, Line::Nothing),
    (b"summary\r", SUMMARY, Line::Bad),
    (b"summary \r", SUMMARY, Line::Bad),
    (b"summary\r\r", Line::Bad, Line::Bad),
    (b"\rsummary", Line::Bad, Line::Bad),
    (b"\r", Line::Nothing, Line::Bad),
    (b"\r\r", Line::Bad, Line::Bad),
    (b"# stop 1\r", Line::Nothing, Line::Nothing),
];

const DAY_SET: Verb = Verb::Day { day: DAY };

// What lines say where acts alone are allowed.
const WITH_ACTS_ALONE: [(&[u8], Line); 10] = [
    (b"sheet b1", Line::Bad),
    (b"pack 1", Line::Bad),
    (b"lane 1", Line::Bad),
    (b"sample b1", Line::Bad),
    (b"summary", Line::Bad),
    (b"@101 1 summary", Line::Bad),
    (b"work 1 b1", Line::Bad),
    (
        b"day 2025-03-03",
        Line::Asks(Command {
            desk: 0,
            request: 0,
            verb: DAY_SET,
        }),
    ),
    (
        b"@101 1 day 2025-03-03",
        Line::Asks(Command {
            desk: 101,
            request: 1,
            verb: DAY_SET,
        }),
    ),
    (b"# summary", Line::Nothing),
];

// The first line that opens a batch of another name.
fn wrong_name(product: Name) -> Option<&'static [u8]> {
    for (line, bytes) in NAMES {
        let Some(batch) = Name::new(bytes) else {
            return Some(line);
        };
        let open = asks(Verb::Open {
            batch,
            product,
            density: 0,
        });
        if says(line) != (open, open) {
            return Some(line);
        }
    }
    None
}

fn wrong_line() -> Option<&'static [u8]> {
    for (line, ended, last) in ENDED_AND_LAST {
        if says(line) != (ended, last) {
            return Some(line);
        }
    }
    None
}

fn wrong_with_acts_alone() -> Option<&'static [u8]> {
    for (line, says) in WITH_ACTS_ALONE {
        if line.len() > MAX_LINE || read_ended_line(ACTS_ALONE, line) != says {
            return Some(line);
        }
    }
    None
}

// How many lanes are handed in, a line, and the lane that it sets to work for the batch b1; any other
// line is bad.
const WORKS: [(u8, &[u8], Option<u8>); 13] = [
    (0, b"work 0 b1", None),
    (0, b"work 1 b1", None),
    (1, b"work 0 b1", None),
    (1, b"work 1 b1", Some(1)),
    (1, b"work 2 b1", None),
    (2, b"work 1 b1", Some(1)),
    (2, b" \twork\t 02  b1\t", Some(2)),
    (2, b"work 2 b1\r", Some(2)),
    (2, b"work 3 b1", None),
    (2, b"@101 1 work 2 b1", None),
    (16, b"work 16 b1", Some(16)),
    (16, b"work 00000000000000000016 b1", Some(16)),
    (16, b"work 17 b1", None),
];

// The first of them that says something else.
fn wrong_work(batch: Name) -> Option<&'static [u8]> {
    for (lanes, line, lane) in WORKS {
        let allowed = Allowed {
            questions: false,
            lanes,
        };
        let says = match lane {
            Some(lane) => Line::Works { lane, batch },
            None => Line::Bad,
        };
        if line.len() > MAX_LINE || read_ended_line(allowed, line) != says {
            return Some(line);
        }
    }
    None
}

// Whether a return belongs to the last name where no LF follows it, and else doesn't.
fn is_name_with_return(batch: Name, rice: Name, with_return: Name) -> bool {
    let ended = asks(Verb::Open {
        batch,
        product: rice,
        density: 0,
    });
    let last = asks(Verb::Open {
        batch,
        product: with_return,
        density: 0,
    });
    says(b"open b1 rice\r") == (ended, last)
}

#[test]
fn lines_are_read(rt: HostRuntime) -> Result<(), Fail> {
    assert_eq!(rt; wrong_name(name(b"rice250")?), None);
    assert_eq!(rt; wrong_line(), None);
    assert_eq!(rt; wrong_with_acts_alone(), None);
    assert_eq!(rt; wrong_work(name(b"b1")?), None);
    assert!(rt; is_name_with_return(name(b"b1")?, name(b"rice")?, name(b"rice\r")?));
    Ok(())
}
