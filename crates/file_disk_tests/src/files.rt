use disk_core::{Disk, Failed};
use file_disk::{FileDisk, Notice, OpenError};
use std::fs;
use std::test::Fail;

// A folder under the one that the tests run in.
const FOLDER: &str = "file_disk_tests";

const BOOK: &str = "file_disk_tests/book";

// A folder whose name changes, and two files in it.
const NAMES: &str = "file_disk_names";

const MOVED: &str = "file_disk_moved";

const NAMED: &str = "file_disk_names/book";

const OTHER: &str = "file_disk_names/other";

// Whether a new file takes three pieces, the last over the end of the one before.
fn is_written(disk: &mut FileDisk<HostRuntime>) -> bool {
    disk.len() == Ok(0)
        && disk.write_at(0, &[7; 90]) == Ok(())
        && disk.write_at(90, b"0123456789") == Ok(())
        && disk.write_at(98, b"abcd") == Ok(())
        && disk.sync() == Ok(())
}

// A place, how many bytes are then read into six, and which.
const READS: [(u64, usize, [u8; 6]); 5] = [
    (90, 6, *b"012345"),
    (96, 6, *b"67abcd"),
    (99, 3, *b"bcd..."),
    (102, 0, *b"......"),
    (1 << 39, 0, *b"......"),
];

// The first place at which other bytes are read.
fn wrong_read(disk: &mut FileDisk<HostRuntime>) -> Option<u64> {
    for (place, count, wanted) in READS {
        let mut into = *b"......";
        if disk.read_at(place, &mut into) != Ok(count) || into != wanted {
            return Some(place);
        }
    }
    None
}

// Whether another hall has the file, and each call fails.
fn is_held(disk: &mut FileDisk<HostRuntime>) -> bool {
    let held = matches!(disk.open_error(), Some(OpenError::Held));
    let mut into = [7; 4];
    held && disk.len() == Err(Failed)
        && disk.read_at(0, &mut into) == Err(Failed)
        && disk.write_at(0, b"lost") == Err(Failed)
        && disk.sync() == Err(Failed)
}

#[test]
fn a_file_is_written_held_and_read_again(rt: HostRuntime) -> Result<(), Fail> {
    let _ = fs::remove_dir_all(&rt, FOLDER);
    fs::create_dir(&rt, FOLDER)?;
    let mut first = FileDisk::open(rt, BOOK);
    assert!(rt; is_written(&mut first));
    let mut second = FileDisk::open(rt, BOOK);
    assert!(rt; is_held(&mut second));
    drop(first);
    let mut third = FileDisk::open(rt, BOOK);
    assert!(rt; third.len() == Ok(102) && wrong_read(&mut third).is_none());
    drop(third);
    fs::remove_dir_all(&rt, FOLDER)?;
    Ok(())
}

#[test]
fn a_path_that_names_another_file_fails(rt: HostRuntime) -> Result<(), Fail> {
    let _ = fs::remove_dir_all(&rt, NAMES);
    let _ = fs::remove_dir_all(&rt, MOVED);
    fs::create_dir(&rt, NAMES)?;
    let mut disk = FileDisk::open(rt, NAMED);
    assert!(rt; disk.notice() == Some(Notice::Made) && disk.sync() == Ok(()));
    fs::rename(&rt, NAMES, MOVED)?;
    assert!(rt; disk.sync() == Ok(()));
    fs::rename(&rt, MOVED, NAMES)?;
    fs::write(&rt, OTHER, b"")?;
    fs::rename(&rt, OTHER, NAMED)?;
    assert!(rt; disk.sync() == Err(Failed));
    fs::remove_file(&rt, NAMED)?;
    assert!(rt; disk.sync() == Err(Failed));
    fs::remove_dir_all(&rt, NAMES)?;
    Ok(())
}

const GROWN: &str = "file_disk_grown";

// How many bytes a file has.
fn size(rt: HostRuntime, path: &str) -> u64 {
    match fs::metadata(&rt, path) {
        Ok(found) => found.len(),
        Err(_) => 0,
    }
}

// Whether the header and the beginning of a row are written and stable, and are all that counts.
fn has_begun_row(disk: &mut FileDisk<HostRuntime>) -> bool {
    let mut behind = [7; 2];
    let mut begun = [1; 96];
    begun[95] = 0;
    disk.write_at(0, b"AQHBOOK2") == Ok(())
        && disk.write_at(8, &[0; 89]) == Ok(())
        && disk.write_at(97, &begun) == Ok(())
        && disk.sync() == Ok(())
        && disk.len() == Ok(193)
        && disk.read_at(192, &mut behind) == Ok(1)
}

#[test]
fn a_row_gets_room_which_goes_with_the_file(rt: HostRuntime) -> Result<(), Fail> {
    let _ = fs::remove_file(&rt, GROWN);
    let mut first = FileDisk::open(rt, GROWN);
    assert!(rt; has_begun_row(&mut first) && size(rt, GROWN) == 65_536);
    let zeros = fs::read(&rt, GROWN)?;
    drop(first);
    assert!(rt; size(rt, GROWN) == 193);
    fs::write(&rt, GROWN, &zeros)?;
    let mut second = FileDisk::open_to_read(rt, GROWN);
    assert!(rt; second.len() == Ok(193) && size(rt, GROWN) == 65_536);
    drop(second);
    let mut third = FileDisk::open(rt, GROWN);
    assert!(rt; third.len() == Ok(193) && size(rt, GROWN) == 193);
    drop(third);
    fs::remove_file(&rt, GROWN)?;
    Ok(())
}
