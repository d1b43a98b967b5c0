use bad_lines::{Fault, KeptInput, KeptOutput};
use command_line::Input::{self, Other, Script, Table};
use std::io::{Read, Write};
use std::test::Fail;

// An input is read in pieces of so many bytes up to its end, and then has this line, or none.
const ROWS: &[(Input, &[u8], usize, u64, Option<&[u8]>)] = &[
    (Script, b"a\nbc\ndef", 8, 1, Some(b"a")),
    (Script, b"a\nbc\ndef", 8, 3, Some(b"def")),
    (Script, b"a\nbc\ndef", 8, 4, None),
    (Script, b"a\nbc\ndef", 8, 0, None),
    (Script, b"a\nbc\ndef", 1, 3, Some(b"def")),
    (Script, b"a\nbc\ndef", 2, 3, Some(b"def")),
    (Script, b"a\nbc\ndef", 3, 2, None),
    (Script, b"a\nbc\nd\ne", 6, 2, None),
    (Script, b"a\nbc\ndef", 2, 1, None),
    (Script, b"a\n\nbc\n", 6, 2, Some(b"")),
    (Table, b"a\n\nbc\r\n\r\nd", 1, 2, Some(b"bc\r")),
    (Table, b"a\n\nbc\r\n\r\nd", 4, 3, Some(b"d")),
    (Table, b"a\n\nbc\r\n\r\nd", 4, 1, Some(b"a")),
    (Other, b"a\n", 4, 1, None),
];

// Reads an input to its end.
fn read_all<R: Read + Drop>(input: &mut KeptInput<R>, piece: usize) -> Result<(), Fail> {
    let mut into = [0; 64];
    let piece = piece.min(into.len());
    for _turn in 0..100 {
        if input.read(&mut into[..piece])? == 0 {
            break;
        }
    }
    Ok(())
}

// The place of the first row that has another line.
fn first_wrong(rt: HostRuntime) -> Result<Option<usize>, Fail> {
    for (place, (kind, bytes, piece, number, line)) in ROWS.iter().enumerate() {
        let mut input = KeptInput::new(rt.alloc(), *bytes, *kind);
        read_all(&mut input, *piece)?;
        if input.line(*number) != *line {
            return Ok(Some(place));
        }
    }
    Ok(None)
}

#[test]
fn inputs_have_their_last_lines(rt: HostRuntime) -> Result<(), Fail> {
    assert_eq!(rt; first_wrong(rt)?, None);
    Ok(())
}

// What an output is given, piece by piece, and what it then says is bad.
const SAID: &[(&[&[u8]], Option<Fault>)] = &[
    (&[b"1\n2 pass\n", b"bad line 3\n"], Some(Fault::Line(3))),
    (&[b"bad line 1", b"2\n"], Some(Fault::Line(12))),
    (
        &[b"bad line 18446744073709551615\n"],
        Some(Fault::Line(18_446_744_073_709_551_615)),
    ),
    (
        &[b"12345678901234567890123456789012345678901234567890123456789\nbad line 7\n"],
        Some(Fault::Line(7)),
    ),
    (&[b"bad line 3\n", b"rows 0\n"], None),
    (&[b"bad plan\n"], Some(Fault::Plan)),
    (&[], None),
    (&[b"bad line\n"], None),
];

// The place of the first output that says otherwise.
fn first_misheard(rt: HostRuntime) -> Result<Option<usize>, Fail> {
    for (place, (pieces, fault)) in SAID.iter().enumerate() {
        let mut output = KeptOutput::new(Vec::new(rt.alloc()));
        for piece in *pieces {
            output.write_all(piece)?;
        }
        if output.fault() != *fault {
            return Ok(Some(place));
        }
    }
    Ok(None)
}

#[test]
fn outputs_say_which_line_is_bad(rt: HostRuntime) -> Result<(), Fail> {
    assert_eq!(rt; first_misheard(rt)?, None);
    Ok(())
}
