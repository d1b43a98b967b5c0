use crate::journals::{Row, squeeze_row};
use crate::rows::{WORKED_SIZES, worked_rows};
use book_snapshot::{Dense, Piece, read_one};
use std::alloc::Global;
use std::test::Fail;

// The first bytes of the content of the worked rows, and its last.
const DAY: [u8; 12] = [11, 1, 0, 0, 0, 0, 0, 0, 0, 0, 0xb6, 0x4e];

const START: [u8; 13] = [12, 5, 0, 0, 0, 0, 0, 0, 0, 0, 1, 1, b'A'];

// How many bytes the dense form takes that is appended.
fn size_of(row: &Row, content: &mut Dense) -> usize {
    let before = content.as_slice().len();
    let _ = squeeze_row(row, content);
    content.as_slice().len().saturating_sub(before)
}

// The same of each of the worked rows.
fn sizes(content: &mut Dense) -> [usize; 5] {
    let [day, product, tare, batch, start] = worked_rows();
    [
        size_of(&day, content),
        size_of(&product, content),
        size_of(&tare, content),
        size_of(&batch, content),
        size_of(&start, content),
    ]
}

// Whether these are the forms of the worked rows.
fn are_worked(all: &[u8]) -> bool {
    all.len() == 171 && all.starts_with(&DAY) && all.get(158..) == Some(&START[..])
}

// Whether the worked rows take so many bytes, and these.
fn have_sizes(alloc: Global) -> bool {
    let mut content = Dense::new(alloc);
    sizes(&mut content) == WORKED_SIZES && are_worked(content.as_slice())
}

#[test]
fn the_worked_rows_have_171_bytes(rt: HostRuntime) -> Result<(), Fail> {
    assert!(rt; have_sizes(rt.alloc()));
    Ok(())
}

const FORM: [u8; 6] = [4, 9, 0, 0, 7, 5];

// The row of that form, as row 300, and its first bytes.
fn row_of_form<const N: usize>() -> [u8; N] {
    let mut row = [0; N];
    for (place, byte) in [(0, 1), (1, 9), (2, 44), (3, 1), (8, 7)] {
        if let Some(there) = row.get_mut(place) {
            *there = byte;
        }
    }
    row
}

// Whether the form reads as its row, and no front of it does.
fn reads_whole() -> bool {
    let mut right = read_one::<96>(&FORM, 300)
        == Piece::Row {
            row: row_of_form::<96>(),
            taken: 5,
        }
        && read_one::<64>(&FORM, 300)
            == Piece::Row {
                row: row_of_form::<64>(),
                taken: 5,
            };
    for cut in 0..5usize {
        right = right && read_one::<96>(&FORM[..cut], 300) == Piece::More;
    }
    right
}

// Bytes, and whether they are no front of a form.
const FAULTS: [(&[u8], bool); 5] = [
    (&[0, 1], true),
    (&[1, 0], true),
    (&[2, 5, 0], true),
    (&[91, 1], false),
    (&[92, 1], true),
];

// Whether faults are found where they are.
fn finds_faults() -> bool {
    let mut right = read_one::<64>(&[59], 1) == Piece::More
        && read_one::<64>(&[60], 1) == Piece::Fault;
    for (bytes, fault) in FAULTS {
        right = right && (read_one::<96>(bytes, 1) == Piece::Fault) == fault;
    }
    right
}

#[test]
fn a_dense_form_reads_as_its_row(rt: HostRuntime) -> Result<(), Fail> {
    assert!(rt; reads_whole() && finds_faults());
    Ok(())
}
