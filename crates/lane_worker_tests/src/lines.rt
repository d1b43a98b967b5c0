use crate::halls::open_hall;
use CellNext::{Bad, End, Gross};
use book_words::Name;
use disk_core::{Failed, MemorySink, MemorySource, Source};
use lane_worker::{
    Cell, CellNext, EitherCell, LaneEnd, LaneStop, LineCell, LineGate, ListCell, PairLane, run_lane,
};
use memory_hall::{CellItem, copy};
use std::alloc::Global;
use std::test::Fail;

// A lane of lines in memory.
type TestLane = PairLane<LineCell<MemorySource>, LineGate<MemorySink>>;

// A source that gives at most so many bytes a read, and counts those that it gave.
#[derive(Drop)]
struct Pieces {
    bytes: &'static [u8],
    piece: usize,
    given: usize,
    ended: bool,
}

impl Source for Pieces {
    ghost use Rattle.std.specs.Prelude.{None};
    ghost use Rattle.device_facts.specs.Frame.{NothingElse, nothing_else};

    ghost left = { λ _. None };

    ghost ended = { λ s. s.ended };

    ghost faults = { λ _. 0 };

    ghost keeps_rest = { NothingElse };

    ghost frame = { nothing_else };

    fn read(&mut self, into: &mut [u8]) -> Result<usize, Failed> {
        let count = self.piece.min(into.len()).min(self.bytes.len());
        let (front, rest) = self.bytes.split_at(count);
        into[..count].copy_from_slice(front);
        self.bytes = rest;
        self.given = self.given.saturating_add(count);
        self.ended = count == 0 && !into.is_empty();
        Ok(count)
    }
}

// A cell over a source that gives at most so many bytes a read.
fn cell_of(bytes: &'static [u8], piece: usize) -> LineCell<Pieces> {
    LineCell::new(Pieces {
        bytes,
        piece,
        given: 0,
        ended: false,
    })
}

// 65 bytes, and so more than a line has.
const OVER: &[u8] = b"00000000000000000000000000000000000000000000000000000000000000001";

// A line of 72 bytes, and two more.
const OVER_LINE: &[u8] =
    b"00000000000000000000000000000000000000000000000000000000000000001\r99.000\n252\nx";

// A line of 195 bytes, and one more.
const LONG_LINE: &[u8] = b"00000000000000000000000000000000000000000000000000000000000000001\
00000000000000000000000000000000000000000000000000000000000000001\
00000000000000000000000000000000000000000000000000000000000000001\n253\r\n";

// The bytes of a cell, and what it gives, call by call.
const LINES: [(&[u8], [CellItem; 4]); 16] = [
    (
        b"",
        [CellItem::End, CellItem::End, CellItem::End, CellItem::End],
    ),
    (
        b"251\n0.5\n",
        [
            CellItem::Gross(251_000),
            CellItem::Gross(500),
            CellItem::End,
            CellItem::End,
        ],
    ),
    // a CR before the LF, and a last line without one
    (
        b"251.000\r\n30000",
        [
            CellItem::Gross(251_000),
            CellItem::Gross(30_000_000),
            CellItem::End,
            CellItem::End,
        ],
    ),
    // it goes on behind a bad line
    (
        b"251\n\n252\n",
        [
            CellItem::Gross(251_000),
            CellItem::Bad { line: 2 },
            CellItem::Gross(252_000),
            CellItem::End,
        ],
    ),
    (
        b"-1\n",
        [
            CellItem::Bad { line: 1 },
            CellItem::End,
            CellItem::End,
            CellItem::End,
        ],
    ),
    // a CR at the end of a last line without an LF
    (
        b"251\r",
        [
            CellItem::Bad { line: 1 },
            CellItem::End,
            CellItem::End,
            CellItem::End,
        ],
    ),
    // 65 bytes without an LF, and what follows them
    (
        OVER,
        [
            CellItem::Bad { line: 1 },
            CellItem::End,
            CellItem::End,
            CellItem::End,
        ],
    ),
    (
        OVER_LINE,
        [
            CellItem::Bad { line: 1 },
            CellItem::Gross(252_000),
            CellItem::Bad { line: 3 },
            CellItem::End,
        ],
    ),
    (
        LONG_LINE,
        [
            CellItem::Bad { line: 1 },
            CellItem::Gross(253_000),
            CellItem::End,
            CellItem::End,
        ],
    ),
    // two bad lines, one behind the other
    (
        b"251 \n+1\n1",
        [
            CellItem::Bad { line: 1 },
            CellItem::Bad { line: 2 },
            CellItem::Gross(1_000),
            CellItem::End,
        ],
    ),
    // a batch, with a CR before the LF, and in a last line without one
    (
        b"batch A\r\n251\nbatch B",
        [
            CellItem::Batch(b"A", 1),
            CellItem::Gross(251_000),
            CellItem::Batch(b"B", 3),
            CellItem::End,
        ],
    ),
    // one batch twice, and names that are no words of the hall
    (
        b"batch A\nbatch A\nbatch batch\nbatch \xff=",
        [
            CellItem::Batch(b"A", 1),
            CellItem::Batch(b"A", 2),
            CellItem::Batch(b"batch", 3),
            CellItem::Batch(b"\xff=", 4),
        ],
    ),
    // names of 32 and of 33 bytes, and of none
    (
        b"batch 0123456789abcdef0123456789abcdef\nbatch 0123456789abcdef0123456789abcdefg\nbatch \n",
        [
            CellItem::Batch(b"0123456789abcdef0123456789abcdef", 1),
            CellItem::Bad { line: 2 },
            CellItem::Bad { line: 3 },
            CellItem::End,
        ],
    ),
    // a blank, a tab or a CR in a name, and two blanks before it
    (
        b"batch A B\nbatch A\t\nbatch A\r\r\n",
        [
            CellItem::Bad { line: 1 },
            CellItem::Bad { line: 2 },
            CellItem::Bad { line: 3 },
            CellItem::End,
        ],
    ),
    (
        b"batch  A\nbatch\tA\nbatch",
        [
            CellItem::Bad { line: 1 },
            CellItem::Bad { line: 2 },
            CellItem::Bad { line: 3 },
            CellItem::End,
        ],
    ),
    (
        b"Batch A\n batch A\nbatch A\r",
        [
            CellItem::Bad { line: 1 },
            CellItem::Bad { line: 2 },
            CellItem::Bad { line: 3 },
            CellItem::End,
        ],
    ),
];

// Whether a cell gives these items.
fn gives(mut cell: LineCell<Pieces>, items: &[CellItem; 4]) -> bool {
    for item in items {
        if cell.next() != Ok(item.next()) {
            return false;
        }
    }
    true
}

// The place of the first row that comes out otherwise, with so many bytes a read.
fn first_wrong(piece: usize) -> Option<usize> {
    for (place, (bytes, items)) in LINES.iter().enumerate() {
        if !gives(cell_of(bytes, piece), items) {
            return Some(place);
        }
    }
    None
}

#[test]
fn the_lines_of_a_cell(rt: HostRuntime) -> Result<(), Fail> {
    assert_eq!(rt; first_wrong(1), None);
    assert_eq!(rt; first_wrong(7), None);
    assert_eq!(rt; first_wrong(100), None);
    Ok(())
}

// What a cell that gets a byte a read has read when it gives an item: its line, and of a long one no
// more than shows that it is too long; the rest of that is read when the next item is asked for.
#[test]
fn no_more_is_read_than_a_line(rt: HostRuntime) -> Result<(), Fail> {
    let mut cell = cell_of(b"251\n252\n", 1);
    assert!(rt; cell.next() == Ok(Gross(251_000)) && cell.source().given == 4);
    let mut cell = cell_of(OVER_LINE, 1);
    assert!(rt; cell.next() == Ok(Bad { line: 1 }) && cell.source().given == 65);
    assert!(rt; cell.next() == Ok(Gross(252_000)) && cell.source().given == 77);
    Ok(())
}

// Which reads and writes fail, how the work ends, how often the gate opened, and its lines.
type Case = (&'static [u32], &'static [u32], LaneStop, u32, &'static [u8]);

// The second pack is rejected. Each line of the gate is one write; the second read, which would
// give the end, fails before the last line is known.
const CASES: [Case; 3] = [
    (&[], &[], LaneStop::Done, 3, b"open 8\nopen 10\nopen 11\n"),
    (&[], &[2], LaneStop::Gate, 1, b"open 8\n"),
    (&[2], &[], LaneStop::Cell, 2, b"open 8\nopen 10\n"),
];

// A lane of lines, of which these reads and writes fail.
fn lane_of(alloc: Global, case: &Case) -> TestLane {
    let text = copy(alloc, b"260\n240\n261.5\n262");
    let source = MemorySource::new(text, copy(alloc, case.0));
    let sink = MemorySink::new(alloc, copy(alloc, case.1));
    PairLane::new(LineCell::new(source), LineGate::new(sink))
}

// Whether a case comes out so.
fn is_right(alloc: Global, case: &Case) -> Option<bool> {
    let batch = Name::new(b"A".as_slice())?;
    let mut hall = open_hall(alloc, &[])?;
    let mut lane = lane_of(alloc, case);
    let end = run_lane(&mut hall, &mut lane, 1, batch);
    let _ = hall.back().close();
    let wanted = LaneEnd {
        opened: case.3,
        stop: case.2,
    };
    Some(end == wanted && lane.gate.sink().bytes() == case.4)
}

#[test]
fn a_lane_of_lines(rt: HostRuntime) -> Result<(), Fail> {
    for case in &CASES {
        assert!(rt; is_right(rt.alloc(), case) == Some(true));
    }
    Ok(())
}

// How the lane ends that weighs these lines, and again behind what isn't a weight.
fn ends_of(alloc: Global, lines: &[u8]) -> Option<[LaneEnd; 2]> {
    let batch = Name::new(b"A".as_slice())?;
    let mut hall = open_hall(alloc, &[])?;
    let source = MemorySource::new(copy(alloc, lines), copy(alloc, &[]));
    let cell: EitherCell<ListCell, LineCell<MemorySource>> = EitherCell::Other(LineCell::new(
        source,
    ));
    let sink = MemorySink::new(alloc, copy(alloc, &[]));
    let mut lane = PairLane::new(cell, LineGate::new(sink));
    let first = run_lane(&mut hall, &mut lane, 1, batch);
    let second = run_lane(&mut hall, &mut lane, 1, batch);
    let _ = hall.back().close();
    Some([first, second])
}

#[test]
fn a_lane_goes_on_behind_a_bad_line(rt: HostRuntime) -> Result<(), Fail> {
    let ends = [
        LaneEnd {
            opened: 1,
            stop: LaneStop::Bad { line: 2 },
        },
        LaneEnd {
            opened: 2,
            stop: LaneStop::Done,
        },
    ];
    assert_eq!(rt; ends_of(rt.alloc(), b"260\nERR\n261\n262\n"), Some(ends));
    Ok(())
}

#[test]
fn a_cell_of_either_kind(rt: HostRuntime) -> Result<(), Fail> {
    let items = copy(rt.alloc(), &[Gross(1_000), Bad { line: 7 }]);
    let mut cell: EitherCell<ListCell, LineCell<Pieces>> = EitherCell::One(ListCell::new(
        items,
        copy(rt.alloc(), &[2]),
    ));
    assert!(rt; cell.next() == Ok(Gross(1_000)));
    assert!(rt; cell.next() == Err(Failed));
    assert!(rt; cell.next() == Ok(Bad { line: 7 }));
    assert!(rt; cell.next() == Ok(End));
    Ok(())
}
