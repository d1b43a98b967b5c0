use disk_core::{Disk, Failed};
use file_disk::{FileDisk, Notice, OpenError};
use std::fs;
use std::test::Fail;

// The beginnings of files, and whether they may become a book.
const BEGINNINGS: [(&[u8], bool); 8] = [
    (b"", true),
    (b"\0\0\0", true),
    (b"AQH", true),
    (b"AQHBOOK2\0\0", true),
    (b"AQHBOOK2\0\x01", false),
    (b"AQHX", false),
    (b"\0QH", false),
    (b"a list of things to buy", false),
];

const SHORT: &str = "file_disk_short";

// The first beginning that is opened otherwise.
fn wrong_beginning(rt: HostRuntime) -> Option<usize> {
    for place in 0..BEGINNINGS.len() {
        let (bytes, begins) = BEGINNINGS[place];
        if fs::write(&rt, SHORT, bytes).is_err() || is_open(rt) != begins {
            return Some(place);
        }
    }
    None
}

// Whether the short file is opened for writing and for reading alike.
fn is_open(rt: HostRuntime) -> bool {
    let written = FileDisk::open(rt, SHORT).open_error().is_none();
    let read = FileDisk::open_to_read(rt, SHORT);
    written || !matches!(read.open_error(), Some(OpenError::NotABook))
}

#[test]
fn a_book_is_made_only_of_nothing(rt: HostRuntime) -> Result<(), Fail> {
    assert!(rt; wrong_beginning(rt).is_none());
    fs::remove_file(&rt, SHORT)?;
    Ok(())
}

const RUNNING: &str = "file_disk_running";

const HEADER: [u8; 9] = *b"AQHBOOK2\x01";

// Whether a file gets a marked header, three open slots and a closed one.
fn is_begun(disk: &mut FileDisk<HostRuntime>) -> bool {
    disk.write_at(0, &[0; 96]) == Ok(())
        && disk.write_at(0, &HEADER) == Ok(())
        && disk.write_at(96, &[1; 288]) == Ok(())
        && disk.write_at(384, &[0; 96]) == Ok(())
}

// Whether two of the three rows are there, without the mark, and their gate can be closed.
fn has_two_rows(disk: &mut FileDisk<HostRuntime>) -> bool {
    let mut mark = [7];
    let mut end = [7; 2];
    disk.notice() == Some(Notice::InUse { rows: 2 })
        && disk.len() == Ok(288)
        && disk.read_at(8, &mut mark) == Ok(1)
        && mark == [0]
        && disk.read_at(287, &mut end) == Ok(1)
        && disk.write_at(288, b"\0") == Ok(())
        && disk.sync() == Ok(())
}

#[test]
fn the_rows_of_a_running_book_are_read(rt: HostRuntime) -> Result<(), Fail> {
    let _ = fs::remove_file(&rt, RUNNING);
    let mut absent = FileDisk::open_to_read(rt, RUNNING);
    assert!(rt; absent.open_error().is_some() && absent.len() == Err(Failed));
    let mut first = FileDisk::open(rt, RUNNING);
    assert!(rt; first.notice() == Some(Notice::Made) && is_begun(&mut first));
    let mut second = FileDisk::open_to_read(rt, RUNNING);
    assert!(rt; has_two_rows(&mut second) && first.len() == Ok(480));
    drop(first);
    let third = FileDisk::open_to_read(rt, RUNNING);
    assert!(rt; third.notice().is_none() && third.open_error().is_none());
    fs::remove_file(&rt, RUNNING)?;
    Ok(())
}
