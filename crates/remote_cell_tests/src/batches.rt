use crate::cells::{any_cell_of, gives, was_written};
use lane_worker::{Cell, CellNext};
use memory_hall::CellItem;
use std::alloc::Global;
use std::test::Fail;

// Connections, what a cell over them gives that takes batches, and what is then written to each of
// those served.
struct Row {
    connections: &'static [&'static [u8]],
    given: &'static [CellItem],
    written: &'static [&'static [u8]],
}

const TAKEN: &[Row] = &[
    Row {
        connections: &[
            b"1 batch A\n2 251\n3 batc",
            b"3 batch B\n3 batch B\n4 260\n5 end\n",
        ],
        given: &[
            CellItem::Batch(b"A", 1),
            CellItem::Gross(251_000),
            CellItem::Batch(b"B", 3),
            CellItem::Gross(260_000),
            CellItem::End,
            CellItem::End,
        ],
        written: &[b"ack 1\nack 2\n", b"ack 3\nack 3\nack 4\nack 5\n"],
    },
    // It is acknowledged when the next item is asked for, and not before.
    Row {
        connections: &[b"1 batch A\n2 batch A\n"],
        given: &[CellItem::Batch(b"A", 1)],
        written: &[b""],
    },
    Row {
        connections: &[b"1 batch A\n2 batch A\n"],
        given: &[CellItem::Batch(b"A", 1), CellItem::Batch(b"A", 2)],
        written: &[b"ack 1\n"],
    },
    // One that is ahead is passed over; one that was taken stands, whatever comes under its number.
    Row {
        connections: &[b"2 batch A\n1 251\n1 batch B\n"],
        given: &[CellItem::Gross(251_000), CellItem::Bad { line: 4 }],
        written: &[b"ack 1\nack 1\n"],
    },
    Row {
        connections: &[b"1 batch A\n1 batch B\n1 251\n2 end\n"],
        given: &[CellItem::Batch(b"A", 1), CellItem::End],
        written: &[b"ack 1\nack 1\nack 1\nack 2\n"],
    },
    Row {
        connections: &[b"1 batch 0123456789abcdef0123456789abcdef\n"],
        given: &[CellItem::Batch(b"0123456789abcdef0123456789abcdef", 1)],
        written: &[b""],
    },
    Row {
        connections: &[b"1 batch end\n2 end\n"],
        given: &[CellItem::Batch(b"end", 1), CellItem::End],
        written: &[b"ack 1\nack 2\n"],
    },
];

// Lines that are bad, each the first of a connection, though batches are taken.
const BAD: &[&[u8]] = &[
    b"1 batch A\r\n",
    b"1 batch\n",
    b"1 batch \n",
    b"1 batch  A\n",
    b"1  batch A\n",
    b"1 batch A B\n",
    b"1 batch A\t\n",
    b"1 Batch A\n",
    b"1 batchA\n",
    b"1 batch\tA\n",
    b"batch A\n",
    b"0 batch A\n",
    b"1 batch 0123456789abcdef0123456789abcdefg\n",
];

// Lines, of which the second is bad where no batches are taken, whatever its number.
const UNTAKEN: &[&[u8]] = &[
    b"1 251\n2 batch A\n3 251\n",
    b"1 251\n1 batch A\n2 251\n",
    b"1 251\n7 batch A\n2 251\n",
];

// Whether a row comes out right.
fn comes_out(alloc: Global, row: &Row) -> bool {
    let mut cell = any_cell_of(alloc, row.connections, &[], true);
    let given = gives(&mut cell, row.given);
    given && was_written(&cell.back(), row.written)
}

// The place of the first row that doesn't.
fn first_wrong(alloc: Global) -> Option<usize> {
    for (place, row) in TAKEN.iter().enumerate() {
        if !comes_out(alloc, row) {
            return Some(place);
        }
    }
    None
}

// Whether a line is bad at this number, at each call, and nothing more is acknowledged.
fn is_bad(alloc: Global, sent: &[u8], number: u32, batches: bool, written: &[u8]) -> bool {
    let bad = Ok(CellNext::Bad { line: number });
    let mut cell = any_cell_of(alloc, &[sent], &[], batches);
    for _weight in 1..number {
        if cell.next().is_err() {
            return false;
        }
    }
    let both = cell.next() == bad && cell.next() == bad;
    both && was_written(&cell.back(), &[written])
}

// The place of the first line that isn't bad.
fn first_good(alloc: Global) -> Option<usize> {
    for (place, sent) in BAD.iter().enumerate() {
        if !is_bad(alloc, sent, 1, true, b"") {
            return Some(place);
        }
    }
    None
}

// The place of the first lines of which a batch is taken.
fn first_taken(alloc: Global) -> Option<usize> {
    for (place, sent) in UNTAKEN.iter().enumerate() {
        if !is_bad(alloc, sent, 2, false, b"ack 1\n") {
            return Some(place);
        }
    }
    None
}

#[test]
fn batches_come_as_weights_do(rt: HostRuntime) -> Result<(), Fail> {
    assert_eq!(rt; first_wrong(rt.alloc()), None);
    assert_eq!(rt; first_good(rt.alloc()), None);
    assert_eq!(rt; first_taken(rt.alloc()), None);
    Ok(())
}
