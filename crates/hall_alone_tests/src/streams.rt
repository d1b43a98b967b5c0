use crate::halls::{book_of, ends_of, only};
use crate::texts::{
    ACTS, CLOSED, FIVE_ROWS, LISTED, OLD_JOURNAL, ONE_SHIPPED, PAPER, PAPER_READ, REGISTER, SHEET,
    THREE_ANSWERED, THREE_PACKS, TWO, TWO_ACTS, TWO_ANSWERED, TWO_TRIED,
};
use disk_core::{MemorySink, MemorySource, QuietSink, QuietSource};
use memory_hall::{copy, disk_of};
use std::alloc::Global;
use std::test::Fail;

// The words and the input of a run; which of its reads, its writes and the calls of its disk fails,
// counted from 1; what it prints, its status, and how many rows it leaves.
type Run = (
    &'static [&'static str],
    &'static [u8],
    (u32, u32, u32),
    &'static str,
    u8,
    usize,
);

const RUN: &[&str] = &["run"];

const MIGRATE: &[&str] = &["migrate"];

const SHIP: &[&str] = &["ship"];

const FOLLOW: &[&str] = &["follow"];

const FOLLOW_TWO: &[&str] = &["follow", "--shipments=2"];

const PROVE: &[&str] = &["prove"];

const PAPER_OF_A: &[&str] = &["paper", "--book=b", "--batch=A"];

// Over an empty disk. The first read gives the whole input, and the next one its end.
const OF_NOTHING: [Run; 41] = [
    // nothing fails
    (RUN, TWO, (3, 4, 0), TWO_ANSWERED, 0, 2),
    (&["check"], b"", (0, 0, 0), "rows 0 whole\n", 0, 0),
    (&["import"], TWO_ACTS, (0, 0, 0), TWO_ANSWERED, 0, 2),
    (&["trial", "0", "2"], b"", (1, 0, 0), TWO_TRIED, 0, 17),
    (MIGRATE, OLD_JOURNAL, (0, 0, 0), "rows 1 whole\n", 0, 1),
    (SHIP, b"", (1, 0, 0), "AQHSHIP2\0\0\0\0\0\0\0\0", 0, 0),
    (SHIP, b"", (0, 1, 0), "", 5, 0),
    (FOLLOW, ONE_SHIPPED, (0, 0, 0), "rows 1 whole\n", 0, 1),
    (FOLLOW_TWO, ONE_SHIPPED, (0, 0, 0), "rows 1 whole\n", 0, 1),
    (FOLLOW, b"", (0, 0, 0), "bad line 0\n", 3, 0),
    // its head, its row and its end are read
    (FOLLOW, ONE_SHIPPED, (1, 0, 0), "read fault\n", 4, 0),
    (FOLLOW, ONE_SHIPPED, (2, 0, 0), "read fault\n", 4, 0),
    (FOLLOW, ONE_SHIPPED, (3, 0, 0), "read fault\n", 4, 1),
    (FOLLOW, ONE_SHIPPED, (0, 1, 0), "", 5, 1),
    (PROVE, PAPER_READ, (0, 0, 0), "true empty\n", 0, 0),
    (PROVE, b"", (0, 0, 0), "bad line 1\n", 3, 0),
    (PROVE, PAPER_READ, (1, 0, 0), "read fault\n", 4, 0),
    (PROVE, PAPER_READ, (2, 0, 0), "read fault\n", 4, 0),
    (PROVE, PAPER_READ, (0, 1, 0), "", 5, 0),
    // at wrong words a write that fails says nothing
    (
        &["Run"],
        b"",
        (0, 0, 0),
        "usage: hall COMMAND [OPTIONS]\n",
        2,
        0,
    ),
    (&["Run"], b"", (0, 1, 0), "", 2, 0),
    // a read fails
    (RUN, TWO, (1, 0, 0), "read fault\n", 4, 0),
    (RUN, TWO, (2, 0, 0), "1 ok\n2 ok\nread fault\n", 4, 2),
    (MIGRATE, OLD_JOURNAL, (1, 0, 0), "read fault\n", 4, 0),
    (MIGRATE, OLD_JOURNAL, (2, 0, 0), "read fault\n", 4, 1),
    // the line that has begun isn't asked, whether it is a command or bad
    (
        RUN,
        b"day 2025-03-03\nproduct rice250 250",
        (2, 0, 0),
        "1 ok\nread fault\n",
        4,
        1,
    ),
    (
        RUN,
        b"day 2025-03-03\nwat",
        (2, 0, 0),
        "1 ok\nread fault\n",
        4,
        1,
    ),
    // the text of a failed read is lost
    (RUN, b"day 2025-03-03\nwat", (2, 2, 0), "1 ok\n", 4, 1),
    (RUN, TWO, (1, 1, 0), "", 4, 0),
    (MIGRATE, OLD_JOURNAL, (2, 1, 0), "", 4, 1),
    // the answer is lost, the row stands, and nothing more is asked
    (RUN, TWO, (0, 1, 0), "", 5, 1),
    (RUN, TWO, (0, 2, 0), "1 ok\n", 5, 2),
    (RUN, b"day 2025-03-03", (0, 1, 0), "", 5, 1),
    (RUN, b"stop 1\nday 2025-03-03\n", (0, 1, 0), "", 5, 0),
    (MIGRATE, OLD_JOURNAL, (0, 1, 0), "", 5, 1),
    // the summary is lost
    (RUN, TWO, (0, 3, 0), "1 ok\n2 ok\n", 5, 2),
    (RUN, b"", (0, 1, 0), "", 5, 0),
    // the text of a bad line is lost
    (RUN, b"day 2025-03-03\nwat\n", (0, 2, 0), "1 ok\n", 3, 1),
    // a bad line is told before the read that would fail
    (
        RUN,
        b"day 2025-03-03\nwat\n",
        (2, 0, 0),
        "1 ok\nbad line 2\n",
        3,
        1,
    ),
    // the disk fails as it is opened
    (RUN, TWO, (0, 0, 1), "disk fault\n", 6, 0),
    // where the line that says so is lost, it is the output that failed
    (RUN, TWO, (0, 1, 1), "", 5, 0),
];

// Over a book of ten rows. An import alone reads.
const OF_TEN_ROWS: [Run; 18] = [
    (&["report", "--batch=A"], b"", (1, 0, 0), SHEET, 0, 10),
    (
        &["report", "--batch=B"],
        b"",
        (0, 0, 0),
        "refused 14 BatchUnknown at 10\n",
        0,
        10,
    ),
    (
        PAPER_OF_A,
        b"",
        (1, 0, 0),
        "refused 15 BatchState running at 10\n",
        0,
        10,
    ),
    (
        &["paper", "--book=b", "--batch=B"],
        b"",
        (0, 0, 0),
        "refused 14 BatchUnknown at 10\n",
        0,
        10,
    ),
    (PAPER_OF_A, b"", (0, 1, 0), "", 5, 10),
    (
        &["ship", "--after=10"],
        b"",
        (1, 0, 0),
        "AQHSHIP2\x0a\0\0\0\x0a\0\0\0",
        0,
        10,
    ),
    (FOLLOW, ONE_SHIPPED, (0, 0, 0), "rows 10 whole\n", 0, 10),
    (&["export"], b"", (1, 0, 0), REGISTER, 0, 10),
    (&["export"], b"", (1, 1, 0), "", 5, 10),
    (&["report"], b"", (1, 1, 0), "", 5, 10),
    (&["list", "--limit=11"], b"", (1, 0, 0), LISTED, 0, 10),
    (&["list"], b"", (1, 1, 0), "", 5, 10),
    (&["acts", "--after=5"], b"", (1, 0, 0), ACTS, 0, 10),
    (&["acts", "--after=10"], b"", (1, 0, 0), "", 0, 10),
    (&["acts"], b"", (1, 1, 0), "", 5, 10),
    (&["import"], TWO_ACTS, (1, 0, 0), "read fault\n", 4, 10),
    (&["import"], TWO_ACTS, (2, 0, 0), "read fault\n", 4, 10),
    (&["import"], TWO_ACTS, (1, 1, 0), "", 4, 10),
];

const OF_FIVE_ROWS: [Run; 1] = [(RUN, THREE_PACKS, (0, 0, 0), THREE_ANSWERED, 0, 10)];

// Over a book with a closed batch.
const OF_CLOSED: [Run; 2] = [
    (PAPER_OF_A, b"", (1, 0, 0), PAPER, 0, 6),
    (PAPER_OF_A, b"", (0, 1, 0), "", 5, 6),
];

// Whether a run over a disk of these bytes comes out so.
fn is_right(alloc: Global, bytes: &[u8], case: &Run) -> bool {
    let (words, input, (read, write, call), printed, status, rows) = *case;
    let mut input = MemorySource::new(copy(alloc, input), only(alloc, read));
    let mut output = MemorySink::new(alloc, only(alloc, write));
    let disk = disk_of(alloc, bytes, &[call]);
    let ends = ends_of(alloc, words, &mut input, &mut output, disk);
    ends == (status, rows) && output.bytes() == printed.as_bytes()
}

// The place of the first run that comes out otherwise over the disk that these scripts leave.
fn wrong_run(alloc: Global, scripts: &[&[u8]], cases: &[Run]) -> Option<usize> {
    let bytes = book_of(alloc, scripts);
    for (place, case) in cases.iter().enumerate() {
        if !is_right(alloc, &bytes, case) {
            return Some(place);
        }
    }
    None
}

#[test]
fn streams_over_nothing(rt: HostRuntime) -> Result<(), Fail> {
    assert_eq!(rt; wrong_run(rt.alloc(), &[], &OF_NOTHING), None);
    Ok(())
}

#[test]
fn streams_over_five_rows(rt: HostRuntime) -> Result<(), Fail> {
    assert_eq!(rt; wrong_run(rt.alloc(), &[FIVE_ROWS], &OF_FIVE_ROWS), None);
    Ok(())
}

#[test]
fn streams_over_ten_rows(rt: HostRuntime) -> Result<(), Fail> {
    assert_eq!(rt;
        wrong_run(rt.alloc(), &[FIVE_ROWS, THREE_PACKS], &OF_TEN_ROWS),
        None
    );
    Ok(())
}

#[test]
fn streams_over_a_closed_batch(rt: HostRuntime) -> Result<(), Fail> {
    assert_eq!(rt; wrong_run(rt.alloc(), &[CLOSED], &OF_CLOSED), None);
    Ok(())
}

// The words and the input of a run, for how many bytes its output has room, what goes out, its
// status, and how many rows it leaves.
type Cut = (
    &'static [&'static str],
    &'static [u8],
    usize,
    &'static str,
    u8,
    usize,
);

const CUT_RUNS: [Cut; 12] = [
    (RUN, TWO, 170, TWO_ANSWERED, 0, 2),
    (RUN, TWO, 15, "1 ok\n2 ok\nrows ", 5, 2),
    (RUN, TWO, 10, "1 ok\n2 ok\n", 5, 2),
    (RUN, TWO, 8, "1 ok\n2 o", 5, 2),
    (RUN, TWO, 2, "1 ", 5, 1),
    (RUN, b"day 2025-03-03\nwat\n", 9, "1 ok\nbad ", 3, 1),
    (&["import"], TWO_ACTS, 0, "", 5, 1),
    (&["import"], TWO_ACTS, 7, "1 ok\n2 ", 5, 2),
    (&["import"], TWO_ACTS, 15, "1 ok\n2 ok\nrows ", 5, 2),
    (&["import"], b"", 4, "bad ", 3, 0),
    (&["trial", "0", "2"], b"", 0, "", 5, 17),
    (&["trial", "0", "2"], b"", 9, "rows 17\nr", 5, 17),
];

// Over a book of ten rows.
const CUT_PRINTS: [Cut; 7] = [
    (&["report"], b"", 0, "", 5, 10),
    (&["report"], b"", 20, "batch A product rice", 5, 10),
    (&["report", "--batch=A"], b"", 7, "batch A", 5, 10),
    (&["report", "--batch=B"], b"", 7, "refused", 5, 10),
    (&["export"], b"", 0, "", 5, 10),
    (&["acts", "--after=8"], b"", 10, "9 ok\tscrip", 5, 10),
    (
        &["export"],
        b"",
        60,
        "pack,batch,product,lane,day,gross,net,class,signal,pile\n6,A,",
        5,
        10,
    ),
];

// Whether a run over a disk of these bytes goes out so.
fn is_cut(alloc: Global, bytes: &[u8], case: &Cut) -> bool {
    let (words, input, room, printed, status, rows) = *case;
    let mut input = QuietSource::new(copy(alloc, input));
    let buffer = Vec::with_capacity(alloc, room).unwrap_or(Vec::new(alloc));
    let mut output = QuietSink::new(buffer);
    let disk = disk_of(alloc, bytes, &[]);
    let ends = ends_of(alloc, words, &mut input, &mut output, disk);
    ends == (status, rows) && output.bytes() == printed.as_bytes()
}

// The place of the first run that goes out otherwise over the disk that these scripts leave.
fn wrong_cut(alloc: Global, scripts: &[&[u8]], cases: &[Cut]) -> Option<usize> {
    let bytes = book_of(alloc, scripts);
    for (place, case) in cases.iter().enumerate() {
        if !is_cut(alloc, &bytes, case) {
            return Some(place);
        }
    }
    None
}

#[test]
fn a_part_of_an_answer_goes_out(rt: HostRuntime) -> Result<(), Fail> {
    assert_eq!(rt; wrong_cut(rt.alloc(), &[], &CUT_RUNS), None);
    Ok(())
}

#[test]
fn a_part_of_a_print_goes_out(rt: HostRuntime) -> Result<(), Fail> {
    assert_eq!(rt;
        wrong_cut(rt.alloc(), &[FIVE_ROWS, THREE_PACKS], &CUT_PRINTS),
        None
    );
    Ok(())
}
