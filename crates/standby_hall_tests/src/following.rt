use crate::books::{after_three, worked};
use crate::copies::open_copy;
use book_words::Entry;
use standby_hall::FollowError;
use std::alloc::Global;
use std::fmt;
use std::test::Fail;

/// What following is told, and how many rows the copy has then.
type Told = (Result<u32, FollowError>, u32);

// What a copy with so many rows is told of these bytes.
fn changed(alloc: Global, entries: &[Entry], rows: usize, bytes: &[u8]) -> Option<Told> {
    let mut copied = open_copy(alloc, entries, rows, &[])?;
    let answer = copied.follow(alloc, bytes, &[]);
    let told = (answer, copied.len());
    let _ = copied.close();
    Some(told)
}

// What a copy with so many rows is told of these bytes, where these reads fail; its rows are then
// the first of the entries.
fn told(
    alloc: Global,
    entries: &[Entry],
    rows: usize,
    bytes: &[u8],
    fails: &[u32],
) -> Option<Told> {
    let mut copied = open_copy(alloc, entries, rows, &[])?;
    let answer = copied.follow(alloc, bytes, fails);
    let told = (answer, copied.len());
    let right = copied.has_front(entries);
    let _ = copied.close();
    if right { Some(told) } else { None }
}

// How many rows a copy has, how many bytes come of the shipment of five rows after three, and what
// it is told.
const WORKED: [(usize, usize, Told); 12] = [
    (3, 208, (Ok(2), 5)),
    (4, 208, (Ok(1), 5)),
    (5, 208, (Ok(0), 5)),
    (6, 208, (Ok(0), 6)),
    (2, 208, (Err(FollowError::Gap { row: 3 }), 2)),
    (2, 16, (Err(FollowError::Gap { row: 3 }), 2)),
    (0, 208, (Err(FollowError::Gap { row: 1 }), 0)),
    (3, 207, (Err(FollowError::Row { row: 5 }), 4)),
    (3, 112, (Err(FollowError::Row { row: 5 }), 4)),
    (5, 111, (Err(FollowError::Row { row: 4 }), 5)),
    (3, 16, (Err(FollowError::Row { row: 4 }), 3)),
    (3, 15, (Err(FollowError::Head), 3)),
];

#[test]
fn copies_of_a_worked_book(rt: HostRuntime) -> Result<(), Fail> {
    let entries = worked()?;
    let bytes = after_three();
    for (rows, count, wanted) in &WORKED {
        let came = bytes.get(..*count).unwrap_or(&[]);
        assert!(rt; told(rt.alloc(), &entries, *rows, came, &[]) == Some(*wanted));
    }
    Ok(())
}

// How many rows there are where so many bytes of the shipment come into a copy of three.
fn rows_of(count: usize) -> u32 {
    match count {
        0..112 => 3,
        112..208 => 4,
        _ => 5,
    }
}

#[test]
fn every_front_of_a_shipment(rt: HostRuntime) -> Result<(), Fail> {
    let entries = worked()?;
    let bytes = after_three();
    for count in 0..bytes.len() {
        let (answer, rows) = told(rt.alloc(), &entries, 3, &bytes[..count], &[]).ok_or(fmt::Error)?;
        assert!(rt; answer.is_err() && rows == rows_of(count));
    }
    Ok(())
}

const FAILED: Result<u32, FollowError> = Err(FollowError::ReadFault);

// Each read of the shipment into a copy of three rows: its head, a row, a row, its end.
#[test]
fn each_read_fails(rt: HostRuntime) -> Result<(), Fail> {
    let entries = worked()?;
    let bytes = after_three();
    for (read, rows) in [(1, 3), (2, 3), (3, 4), (4, 5)] {
        assert!(rt; told(rt.alloc(), &entries, 3, &bytes, &[read]) == Some((FAILED, rows)));
    }
    assert!(rt; told(rt.alloc(), &entries, 3, &bytes, &[5]) == Some((Ok(2), 5)));
    Ok(())
}

// Which byte of the shipment is another, and what a copy of three rows and of five is told: the
// title, the numbers of the head, the gate, the kind, the number and the lane of a row, zeros.
const CHANGED: [(usize, u8, Told, Told); 10] = [
    (
        7,
        b'1',
        (Err(FollowError::Head), 3),
        (Err(FollowError::Head), 5),
    ),
    (
        8,
        2,
        (Err(FollowError::Head), 3),
        (Err(FollowError::Head), 5),
    ),
    (
        11,
        1,
        (Err(FollowError::Head), 3),
        (Err(FollowError::Head), 5),
    ),
    (
        8,
        4,
        (Err(FollowError::Extra), 4),
        (Err(FollowError::Extra), 5),
    ),
    (
        8,
        6,
        (Err(FollowError::Row { row: 6 }), 5),
        (Err(FollowError::Row { row: 6 }), 5),
    ),
    (
        12,
        4,
        (Err(FollowError::Gap { row: 4 }), 3),
        (Err(FollowError::Row { row: 5 }), 5),
    ),
    (
        16,
        0,
        (Err(FollowError::Row { row: 4 }), 3),
        (Err(FollowError::Row { row: 4 }), 5),
    ),
    (
        18,
        5,
        (Err(FollowError::Row { row: 4 }), 3),
        (Err(FollowError::Row { row: 4 }), 5),
    ),
    (126, 2, (Ok(2), 5), (Err(FollowError::Row { row: 5 }), 5)),
    (
        207,
        1,
        (Err(FollowError::Row { row: 5 }), 4),
        (Err(FollowError::Row { row: 5 }), 5),
    ),
];

#[test]
fn changed_bytes(rt: HostRuntime) -> Result<(), Fail> {
    let entries = worked()?;
    for (place, byte, three, five) in &CHANGED {
        let mut bytes = after_three();
        bytes[*place] = *byte;
        let alloc = rt.alloc();
        assert!(rt; changed(alloc, &entries, 3, &bytes) == Some(*three));
        assert!(rt; changed(alloc, &entries, 5, &bytes) == Some(*five));
    }
    Ok(())
}

// Which call fails as the fourth row and the fifth are added to a copy of three, whose mounting and
// rows made 16 calls, and how many rows it has then; with the whole shipment again it has five.
const FAILS: [(u32, u32); 8] = [
    (17, 3),
    (18, 3),
    (19, 3),
    (20, 3),
    (21, 4),
    (22, 4),
    (23, 4),
    (24, 4),
];

// What a copy of three rows on a disk whose call of this number fails is told of the shipment, and
// then of the same again.
fn told_twice(alloc: Global, entries: &[Entry], fails: u32) -> Option<(Told, Told)> {
    let bytes = after_three();
    let mut copied = open_copy(alloc, entries, 3, &[fails])?;
    let first = copied.follow(alloc, &bytes, &[]);
    let rows = copied.len();
    let second = copied.follow(alloc, &bytes, &[]);
    let told = ((first, rows), (second, copied.len()));
    let right = copied.has_front(entries);
    let _ = copied.close();
    if right { Some(told) } else { None }
}

#[test]
fn each_call_of_the_disk_fails(rt: HostRuntime) -> Result<(), Fail> {
    let entries = worked()?;
    for (call, rows) in &FAILS {
        let failed = (Err(FollowError::DiskFault), *rows);
        let again = (Ok(5 - *rows), 5);
        assert!(rt; told_twice(rt.alloc(), &entries, *call) == Some((failed, again)));
    }
    Ok(())
}
