use disk_core::Disk;
use file_disk::{FileDisk, OpenError};
use std::fs;
use std::test::Fail;

const PATH: &str = "file_disk_slots";

// What a book of two rows and their snapshot has at which places; the rest is 0.
const PIECES: [(u64, &[u8]); 6] = [
    (0, b"AQHBOOK2\x01"),
    (96, b"\x01\x07\x01\0\0\0\x05"),
    (192, b"\x01\x07\x02\0\0\0\x05"),
    (384, b"\0S\x02\0\0\0\x06"),
    (480, b"\0\0\x02\x07\x05\x02\x07\x05"),
    (576, b"\0T\x02\0\0\0\x06"),
];

const LAST: u64 = 671;

// The places of bytes that are changed to another, and the row that then differs: of slots, their
// gates, numbers and ends, and of the snapshot's content.
const DIFFERING: [(u64, u8, u32); 7] = [
    (102, 4, 1),
    (97, 8, 1),
    (191, 1, 1),
    (192, 0, 2),
    (194, 1, 2),
    (287, 1, 2),
    (484, 6, 1),
];

// The same of what differs where no snapshot fits, or its content isn't that of two rows: the mark,
// the tail, the head, the size in both, and a form of no byte.
const UNFIT: [(u64, u8); 6] = [(8, 0), (577, 0), (385, 0), (582, 7), (671, 1), (485, 0)];

// Makes the book anew, with other bytes at two places.
fn put(rt: HostRuntime, first: (u64, u8), second: (u64, u8)) -> bool {
    let _ = fs::remove_file(&rt, PATH);
    let mut disk = FileDisk::open(rt, PATH);
    let mut done = disk.write_at(LAST, b"\0") == Ok(());
    for (place, bytes) in PIECES {
        done = done && disk.write_at(place, bytes) == Ok(());
    }
    for (place, byte) in [first, second] {
        done = done && place <= LAST && disk.write_at(place, &[byte]) == Ok(());
    }
    done
}

// The row by which the book isn't opened for writing; it is opened for reading.
fn differing(rt: HostRuntime) -> Option<u32> {
    if FileDisk::open_to_read(rt, PATH).open_error().is_some() {
        return Some(0);
    }
    match FileDisk::open(rt, PATH).open_error()? {
        OpenError::Differs { row } => Some(*row),
        _ => Some(0),
    }
}

// The first place of which another row is told.
fn wrong_place(rt: HostRuntime) -> Option<u64> {
    for (place, byte, row) in DIFFERING {
        if !put(rt, (place, byte), (LAST, 0)) || differing(rt) != Some(row) {
            return Some(place);
        }
    }
    None
}

// The first place that keeps the book from being opened though no snapshot fits.
fn refused_place(rt: HostRuntime) -> Option<u64> {
    for (place, byte) in UNFIT {
        if !put(rt, (place, byte), (LAST, 0)) || differing(rt).is_some() {
            return Some(place);
        }
    }
    None
}

#[test]
fn slots_are_compared_with_the_snapshot(rt: HostRuntime) -> Result<(), Fail> {
    assert!(rt; put(rt, (LAST, 0), (LAST, 0)) && differing(rt).is_none());
    assert!(rt; wrong_place(rt).is_none());
    assert!(rt; put(rt, (200, 1), (102, 4)) && differing(rt) == Some(1));
    assert!(rt; refused_place(rt).is_none());
    assert!(rt; put(rt, (102, 4), (8, 0)) && differing(rt).is_none());
    fs::remove_file(&rt, PATH)?;
    Ok(())
}
