use disk_core::{DISK_END, Disk, Failed, Keep, MemoryDisk, NoMemory, QuietDisk};
use std::test::Fail;

// Writes where there is a byte or the end.
fn put(disk: &mut MemoryDisk, place: u64, bytes: &[u8]) -> Result<(), Failed> {
    if place as usize > disk.bytes().len() || place > 99 || bytes.len() > 99 {
        return Ok(());
    }
    disk.write_at(place, bytes)
}

// What a crash leaves, or nothing where so many calls weren't made.
fn image(disk: &MemoryDisk, after: u32, keep: Keep) -> Result<Vec<u8>, NoMemory> {
    disk.crash((after as usize).min(disk.calls_made()) as u32, keep)
}

// How many calls were made, what is kept of those behind the last sync, and what is left.
const IMAGES: [(u32, Keep, &[u8]); 9] = [
    (0, Keep::Written, b"abc"),
    (1, Keep::Earlier, b"abc"),
    (1, Keep::Fill(7), &[97, 7, 7]),
    (2, Keep::Earlier, b"axy"),
    (3, Keep::Earlier, b"axy"),
    (3, Keep::Written, b"axpqr"),
    (3, Keep::Fill(0), &[97, 120, 0, 0, 0]),
    (5, Keep::Earlier, b"axy"),
    (6, Keep::Earlier, b"axpqr"),
];

#[test]
fn a_crash_leaves_what_was_stable_and_any_bytes_where_something_was_written(
    rt: HostRuntime,
) -> Result<(), Fail> {
    let alloc = rt.alloc();
    let mut disk = MemoryDisk::new(alloc, b"abc".to_vec(alloc)?, vec![in alloc; 3u32, 5]?);
    assert!(rt; put(&mut disk, 1, b"xy") == Ok(()));
    assert!(rt; disk.sync() == Ok(()));
    assert!(rt; put(&mut disk, 2, b"pqr") == Err(Failed));
    assert!(rt; disk.len() == Ok(5));
    assert!(rt; disk.sync() == Err(Failed));
    assert!(rt; disk.calls_made() == 5);
    assert!(rt; disk.sync() == Ok(()));
    for (after, keep, bytes) in IMAGES {
        let left = image(&disk, after, keep)?;
        assert!(rt; left.as_slice() == bytes, "after {after} calls");
    }
    Ok(())
}

#[test]
fn disks_read_what_is_there(rt: HostRuntime) -> Result<(), Fail> {
    let alloc = rt.alloc();
    let mut memory = MemoryDisk::new(alloc, Vec::new(alloc), vec![in alloc; 2u32]?);
    let mut quiet = QuietDisk::new(Vec::with_capacity(alloc, 4)?);
    assert!(rt; put(&mut memory, 0, b"abcd") == Ok(()));
    assert!(rt; quiet.write_at(0, b"abcd") == Ok(()));
    assert!(rt; put(&mut memory, 3, b"de") == Err(Failed));
    assert!(rt; quiet.write_at(3, b"de") == Err(Failed));
    let mut into = [0u8; 3];
    for (place, count, held) in [(0, 3, b"abc"), (2, 2, b"cdc")] {
        assert!(rt; quiet.read_at(place, &mut into) == Ok(count));
        assert!(rt; into == *held);
    }
    assert!(rt; memory.read_at(3, &mut into) == Ok(2));
    assert!(rt; into == *b"dec");
    assert!(rt; memory.read_at(9, &mut into) == Ok(0));
    assert!(rt; memory.bytes() == b"abcde".as_slice());
    assert!(rt; quiet.len() == Ok(4));
    assert!(rt; quiet.sync() == Ok(()));
    assert!(rt; quiet.bytes() == b"abcd".as_slice());
    assert!(rt; DISK_END == 1_099_511_627_776);
    Ok(())
}
