use crate::cells::{cell_of, gives, was_written};
use memory_hall::CellItem;
use std::alloc::Global;
use std::test::Fail;

// Connections, what a cell over them gives, and what is then written to each of those served.
struct Row {
    connections: &'static [&'static [u8]],
    items: &'static [CellItem],
    written: &'static [&'static [u8]],
}

const ROWS: &[Row] = &[
    Row {
        connections: &[b"1 251\n2 26", b"1 251\n2 260\n2 260\n4 255\n3 end\n"],
        items: &[
            CellItem::Gross(251_000),
            CellItem::Gross(260_000),
            CellItem::End,
            CellItem::End,
        ],
        written: &[b"ack 1\n", b"ack 1\nack 2\nack 2\nack 3\n"],
    },
    Row {
        connections: &[b"1 x\n"],
        items: &[CellItem::Bad { line: 1 }, CellItem::Bad { line: 1 }],
        written: &[b""],
    },
    // Behind the last connection the line after the last is bad, lines passed over among those
    // before it; one that is cut is none.
    Row {
        connections: &[b"2 251\n1 25", b"1 251\n"],
        items: &[CellItem::Gross(251_000), CellItem::Bad { line: 3 }],
        written: &[b"", b"ack 1\n"],
    },
    Row {
        connections: &[],
        items: &[CellItem::Bad { line: 1 }],
        written: &[],
    },
    // The number, the space and what is said are spelled in one way each.
    Row {
        connections: &[b"0 251\n"],
        items: &[CellItem::Bad { line: 1 }],
        written: &[b""],
    },
    Row {
        connections: &[b"4294967295 251\n4294967296 251\n"],
        items: &[CellItem::Bad { line: 2 }],
        written: &[b""],
    },
    Row {
        connections: &[b"1 251\r\n"],
        items: &[CellItem::Bad { line: 1 }],
        written: &[b""],
    },
    Row {
        connections: &[b"1  251\n"],
        items: &[CellItem::Bad { line: 1 }],
        written: &[b""],
    },
    Row {
        connections: &[b"\n"],
        items: &[CellItem::Bad { line: 1 }],
        written: &[b""],
    },
    Row {
        connections: &[b"01 251.5\n2 END\n"],
        items: &[CellItem::Gross(251_500), CellItem::Bad { line: 2 }],
        written: &[b"ack 1\n"],
    },
    // 64 bytes are a line that says nothing, and 65 are none; 20 digits are a number.
    Row {
        connections: &[
            b"00000000000000000001 251\n\
            1234567890123456789012345678901234567890123456789012345678901234\n",
        ],
        items: &[CellItem::Gross(251_000), CellItem::Bad { line: 2 }],
        written: &[b"ack 1\n"],
    },
    Row {
        connections: &[
            b"12345678901234567890123456789012345678901234567890123456789012345",
            b"1 251\n",
        ],
        items: &[CellItem::Bad { line: 1 }, CellItem::Bad { line: 1 }],
        written: &[b""],
    },
];

// Whether a row comes out right.
fn comes_out(alloc: Global, row: &Row) -> bool {
    let mut cell = cell_of(alloc, row.connections, &[]);
    let given = gives(&mut cell, row.items);
    given && was_written(&cell.back(), row.written)
}

// The place of the first row that doesn't.
fn first_wrong(alloc: Global) -> Option<usize> {
    for (place, row) in ROWS.iter().enumerate() {
        if !comes_out(alloc, row) {
            return Some(place);
        }
    }
    None
}

#[test]
fn rows_come_out(rt: HostRuntime) -> Result<(), Fail> {
    assert_eq!(rt; first_wrong(rt.alloc()), None);
    Ok(())
}
