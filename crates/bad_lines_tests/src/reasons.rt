use bad_lines::reason;
use command_line::Input::{self, Paper, Script, Table};
use std::alloc::Global;
use std::fmt::Write;
use std::test::Fail;

// An input, a line of it by its number, and what is told of that.
const ROWS: &[(Input, u64, &[u8], &str)] = &[
    (
        Script,
        2,
        b"weigh 1 250,5",
        "a point, not a comma, in 250,5",
    ),
    (Script, 2, b"weihg 1 250.5", "no such command: weihg"),
    (
        Script,
        1,
        b"\xef\xbb\xbfday 2025-03-03",
        "a byte order mark: save the text without it",
    ),
    (Script, 9, &[b'#'; 201], "more than 200 bytes"),
    (Script, 9, b"end A\x07", "a character that no command has"),
    (
        Script,
        9,
        b"day\t03.03.2025\r",
        "not as day DATE (2025-03-03)",
    ),
    (
        Script,
        9,
        b"@101 7 sheet A",
        "no act that a desk sends: sheet",
    ),
    (Script, 9, b"@101", "not as @DESK REQUEST and an act"),
    (
        Script,
        9,
        b"\xc3\xb6ffne A",
        "no such command: \\xc3\\xb6ffne",
    ),
    (
        Script,
        9,
        b"open A B, 2",
        "not as open BATCH PRODUCT [GRAMS A LITRE]",
    ),
    (
        Table,
        1,
        b"desk;request;command",
        "the table begins with desk,request,command",
    ),
    (
        Table,
        2,
        b"101;1;day 2025-03-03",
        "commas, not semicolons, part the fields",
    ),
    (
        Table,
        2,
        b"101,1",
        "three fields are wanted: desk,request,command",
    ),
    (
        Table,
        2,
        b"101,1,",
        "three fields are wanted: desk,request,command",
    ),
    (
        Table,
        2,
        b"101,1,summary\r",
        "no act that a desk sends: summary",
    ),
    (
        Table,
        2,
        b"101,1,\"weigh 1 250,5\"",
        "a point, not a comma, in 250,5",
    ),
    (Table, 2, b"101,1,\"viod 6\"\r", "no such command: viod"),
    (Table, 2, b"0x65,1,void 6", "a desk is 0 to 65535, not 0x65"),
    (
        Table,
        2,
        b"101,4294967296,void 6",
        "a request is 0 to 4294967295, not 4294967296",
    ),
    (Script, 9, b"day 2025-02-29", "no such day: 2025-02-29"),
    (
        Script,
        9,
        b"day 1969-12-31",
        "a day before 1970-01-01: 1969-12-31",
    ),
    (
        Script,
        9,
        b"tare rice 2024-02-29 1.2345",
        "more than three decimals in 1.2345",
    ),
    (Script, 9, b"weigh 1 -5", "a sign in -5"),
    (Script, 9, b"weigh 256 5", "a lane is 1 to 16, not 256"),
    (
        Script,
        9,
        b"@65536 1 day 2025-03-03",
        "a desk is 0 to 65535, not 65536",
    ),
    (
        Script,
        9,
        b"@101 day 2025-03-03",
        "the request number is missing before day",
    ),
    (
        Paper,
        9,
        b"verdict released",
        "not the verdict that follows from the lines before it",
    ),
    (Paper, 9, b"void 6", "no line of a paper begins so"),
];

// Whether that is told.
fn is_told(alloc: Global, row: &(Input, u64, &[u8], &str)) -> bool {
    let (kind, number, line, wanted) = row;
    let mut text = String::new(alloc);
    let is_written = write!(text, "{}", reason(*kind, *number, line)).is_ok();
    is_written && text.as_str() == *wanted
}

// The place of the first row of which something else is told.
fn first_wrong(alloc: Global) -> Option<usize> {
    ROWS.iter().position(|row| !is_told(alloc, row))
}

#[test]
fn lines_are_told(rt: HostRuntime) -> Result<(), Fail> {
    assert_eq!(rt; first_wrong(rt.alloc()), None);
    Ok(())
}
