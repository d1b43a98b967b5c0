use crate::appends::{image, mounted_rows};
use crate::journals::{TestJournal, bytes_of, copy, mount_bytes, squeeze_row};
use crate::rows::{full_row, worked_rows};
use book_journal::{BLOCKS_CONTENT, Dense, Kept};
use disk_core::{Disk, Keep, MemoryDisk};
use std::alloc::Global;
use std::test::Fail;

// Appends the worked rows and keeps a snapshot of them.
fn add_worked<D: Disk>(alloc: Global, kept: &mut TestJournal<D>) {
    for row in &worked_rows() {
        let _ = kept.add(row);
    }
    let _ = kept.keep_rows(alloc);
}

// The bytes of a journal of the worked rows on an empty disk, with a snapshot.
fn worked(alloc: Global) -> Vec<u8> {
    let Some(mut kept) = mount_bytes(alloc, Vec::new(alloc)) else {
        return Vec::new(alloc);
    };
    add_worked(alloc, &mut kept);
    bytes_of(alloc, kept)
}

const WORKED: Option<Kept> = Some(Kept {
    rows: 5,
    bytes: 171,
});

// What stands where on that disk: its header with the mark, the gate, kind and number of the first
// row, the closed gate, and the head, the content and the tail of the snapshot.
const STANDS: [(usize, &[u8]); 7] = [
    (0, b"AQHBOOK2\x01\0"),
    (96, &[1, 1, 1, 0, 0, 0]),
    (576, &[0; 96]),
    (672, &[0, 83, 5, 0, 0, 0, 171, 0, 0, 0, 0, 0, 0, 0, 0]),
    (
        768,
        &[0, 0, 11, 1, 0, 0, 0, 0, 0, 0, 0, 0, 0xb6, 0x4e, 45, 2],
    ),
    (864, &[0, 0, 0, 0]),
    (960, &[0, 84, 5, 0, 0, 0, 171, 0, 0, 0, 0, 0, 0, 0, 0]),
];

// Whether these bytes stand at a place.
fn stands(bytes: &[u8], place: usize, those: &[u8]) -> bool {
    bytes
        .get(place..)
        .is_some_and(|rest| rest.starts_with(those))
}

// The first place where something else stands; the size of the disk where there is none.
fn first_wrong(bytes: &[u8]) -> usize {
    for (place, those) in STANDS {
        if !stands(bytes, place, those) {
            return place;
        }
    }
    bytes.len()
}

#[test]
fn a_snapshot_stands_behind_the_closed_gate(rt: HostRuntime) -> Result<(), Fail> {
    assert!(rt; first_wrong(&worked(rt.alloc())) == 1_056);
    Ok(())
}

// Appends the full rows of some bytes, and their dense forms to content; tells whether all were
// acknowledged.
fn add_full<D: Disk>(
    kept: &mut TestJournal<D>,
    bytes: std::ops::Range<u8>,
    content: &mut Dense,
) -> bool {
    for byte in bytes {
        let row = full_row(byte);
        if kept.add(&row).is_err() || !squeeze_row(&row, content) {
            return false;
        }
    }
    true
}

// Whether the content is read back in two pieces.
fn reads_pieces<D: Disk>(kept: &mut TestJournal<D>, content: &Dense) -> bool {
    let mut first = [0; BLOCKS_CONTENT];
    let mut second = [0; BLOCKS_CONTENT];
    kept.blocks(0, &mut first) == Ok(3_948)
        && kept.blocks(1, &mut second) == Ok(1_572)
        && content.as_slice().get(..3_948) == first.get(..3_948)
        && content.as_slice().get(3_948..) == second.get(..1_572)
}

// A journal of sixty rows and their snapshot, as it is mounted.
fn sixty(alloc: Global, content: &mut Dense) -> Option<TestJournal<MemoryDisk>> {
    let mut kept = mount_bytes(alloc, Vec::new(alloc))?;
    if !add_full(&mut kept, 1..61, content) || kept.keep(content).is_err() {
        return None;
    }
    mount_bytes(alloc, bytes_of(alloc, kept))
}

// The snapshot that was found, and how many calls the disk was asked.
fn snapshot_found(kept: TestJournal<MemoryDisk>) -> (Option<Kept>, usize) {
    let found = kept.journal.kept();
    (found, kept.journal.give_back().calls_made())
}

// The snapshot of sixty rows as it is found, and how many calls finding and reading it takes.
fn in_pieces(alloc: Global) -> Option<(Option<Kept>, usize)> {
    let mut content = Dense::new(alloc);
    let mut kept = sixty(alloc, &mut content)?;
    if reads_pieces(&mut kept, &content) {
        Some(snapshot_found(kept))
    } else {
        None
    }
}

#[test]
fn a_snapshot_is_read_in_pieces(rt: HostRuntime) -> Result<(), Fail> {
    let found = Kept {
        rows: 60,
        bytes: 5_520,
    };
    assert!(rt; in_pieces(rt.alloc()) == Some((Some(found), 7 + 2)));
    Ok(())
}

// What is mounted after a crash behind each of the last 14 calls of a session: the second append's
// last, the 7 of keeping a snapshot, and the 6 of an append of the journal that is marked then.
const AFTER: [(Keep, [u32; 14], [bool; 14]); 4] = [
    (
        Keep::Earlier,
        [2, 2, 2, 2, 2, 2, 2, 2, 2, 2, 2, 2, 2, 3],
        [
            false, false, false, false, false, false, false, true, true, false, false, false,
            false, false,
        ],
    ),
    (
        Keep::Written,
        [2, 2, 2, 2, 2, 2, 2, 2, 2, 2, 2, 2, 3, 3],
        [
            false, false, false, false, false, false, true, true, false, false, false, false,
            false, false,
        ],
    ),
    (
        Keep::Fill(0),
        [2, 2, 2, 2, 2, 2, 2, 2, 2, 2, 2, 2, 2, 3],
        [
            false, false, false, false, false, false, false, true, false, false, false, false,
            false, false,
        ],
    ),
    (
        Keep::Fill(1),
        [2, 2, 2, 2, 2, 2, 2, 2, 2, 2, 2, 2, 3, 3],
        [
            false, false, false, false, false, false, true, true, true, false, false, false, false,
            false,
        ],
    ),
];

// How many rows are mounted of these bytes, and whether a snapshot fits them.
fn mounted(alloc: Global, bytes: Vec<u8>) -> Option<(u32, bool)> {
    let kept = mount_bytes(alloc, bytes)?;
    Some((kept.journal.count(), kept.journal.kept().is_some()))
}

// Whether that session is answered so.
fn is_answered<D: Disk>(alloc: Global, kept: &mut TestJournal<D>) -> bool {
    let mut content = Dense::new(alloc);
    add_full(kept, 2..4, &mut content)
        && kept.keep(&content).is_ok()
        && kept.add(&full_row(4)) == Ok(3)
}

// The disk of that session.
fn session(alloc: Global) -> Option<MemoryDisk> {
    let mut kept = mount_bytes(alloc, Vec::new(alloc))?;
    if is_answered(alloc, &mut kept) {
        Some(kept.journal.give_back())
    } else {
        None
    }
}

// What is mounted after a crash.
fn crash_mounted(
    alloc: Global,
    disk: &MemoryDisk,
    after: usize,
    keep: Keep,
) -> Option<(u32, bool)> {
    mounted(alloc, image(disk, after, keep)?)
}

// Whether a crash leaves so many rows, and a snapshot or none.
fn leaves(
    alloc: Global,
    disk: &MemoryDisk,
    keep: Keep,
    rows: &[u32; 14],
    snapshots: &[bool; 14],
) -> bool {
    for place in 0..14usize {
        let seen = crash_mounted(alloc, disk, place + 12, keep);
        if seen != Some((rows[place], snapshots[place])) {
            return false;
        }
    }
    true
}

// The same for each way of a crash.
fn leaves_each_way(alloc: Global, disk: &MemoryDisk) -> bool {
    for (keep, rows, snapshots) in &AFTER {
        if !leaves(alloc, disk, *keep, rows, snapshots) {
            return false;
        }
    }
    true
}

// The same of the disk of that session, which is asked 25 calls.
fn leaves_session(alloc: Global) -> bool {
    match session(alloc) {
        Some(disk) => disk.calls_made() == 25 && leaves_each_way(alloc, &disk),
        None => false,
    }
}

#[test]
fn a_crash_leaves_the_rows_with_a_snapshot_or_without(rt: HostRuntime) -> Result<(), Fail> {
    assert!(rt; leaves_session(rt.alloc()));
    Ok(())
}

// Some bytes, of which these are others.
fn changed(bytes: Vec<u8>, changes: &[(usize, u8)]) -> Vec<u8> {
    let mut bytes = bytes;
    for (place, byte) in changes {
        if let Some(there) = bytes.get_mut(*place) {
            *there = *byte;
        }
    }
    bytes
}

// Whether these bytes have the mark 0, six rows and no snapshot.
fn is_unmarked(alloc: Global, bytes: Vec<u8>) -> bool {
    bytes.get(8).copied() == Some(0) && mounted(alloc, bytes) == Some((6, false))
}

// Whether a snapshot is found under a mark, behind which a sixth row is appended: the disk is then
// unmarked.
fn marked_found(alloc: Global, mark: u8) -> Option<bool> {
    let mut kept = mount_bytes(alloc, changed(worked(alloc), &[(8, mark)]))?;
    let found = kept.journal.kept().is_some();
    let right = kept.journal.count() == 5 && kept.add(&full_row(9)) == Ok(6);
    if is_unmarked(alloc, bytes_of(alloc, kept)) && right {
        Some(found)
    } else {
        None
    }
}

#[test]
fn a_torn_mark_stands_for_no_snapshot(rt: HostRuntime) -> Result<(), Fail> {
    let alloc = rt.alloc();
    let found = [
        marked_found(alloc, 0),
        marked_found(alloc, 1),
        marked_found(alloc, 2),
        marked_found(alloc, 255),
    ];
    assert!(rt; found == [Some(false), Some(true), Some(false), Some(false)]);
    Ok(())
}

// Whether the snapshot of a journal is taken as it is, and a row is appended behind its five.
fn is_taken<D: Disk>(kept: &mut TestJournal<D>) -> bool {
    let mut into = [0; BLOCKS_CONTENT];
    kept.journal.kept() == WORKED
        && kept.journal.count() == 5
        && kept.blocks(0, &mut into) == Ok(171)
        && into[0] == 99
        && kept.byte(1, 0) == Some(0)
        && kept.add(&full_row(9)) == Ok(6)
}

// The rows behind that, of which the first slot is closed: where the mark is gone there are none.
fn taken(alloc: Global) -> Option<u32> {
    let bytes = changed(worked(alloc), &[(96, 0), (192, 7), (770, 99)]);
    let mut kept = mount_bytes(alloc, bytes)?;
    if !is_taken(&mut kept) {
        return None;
    }
    mounted_rows(alloc, bytes_of(alloc, kept))
}

#[test]
fn a_snapshot_of_other_rows_is_mounted_as_it_is(rt: HostRuntime) -> Result<(), Fail> {
    assert!(rt; taken(rt.alloc()) == Some(0));
    Ok(())
}

// The bytes of the worked rows with their snapshot, and foreign ones and the tail again behind.
fn with_foreign(alloc: Global) -> Vec<u8> {
    let mut bytes = worked(alloc);
    let tail = copy(alloc, bytes.get(960..).unwrap_or(&[]));
    let _ = bytes.extend_from_slice(&[7; 96]);
    let _ = bytes.extend_from_slice(&tail);
    bytes
}

// What that disk reads when a snapshot of its five rows was kept, where none was found.
fn kept_anew(alloc: Global) -> Option<Vec<u8>> {
    let mut kept = mount_bytes(alloc, with_foreign(alloc))?;
    if kept.journal.kept().is_some() || kept.journal.count() != 5 || !kept.keep_rows(alloc) {
        return None;
    }
    Some(bytes_of(alloc, kept))
}

// Whether all but the mark stays where a snapshot is wanted behind foreign bytes.
fn leaves_foreign(alloc: Global) -> bool {
    let unmarked = changed(with_foreign(alloc), &[(8, 0)]);
    match kept_anew(alloc) {
        Some(bytes) => bytes.as_slice() == unmarked.as_slice(),
        None => false,
    }
}

#[test]
fn foreign_bytes_at_the_end_are_left(rt: HostRuntime) -> Result<(), Fail> {
    assert!(rt; leaves_foreign(rt.alloc()));
    Ok(())
}
