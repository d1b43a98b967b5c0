use crate::appends::mounted_rows;
use crate::journals::copy;
use book_journal::{Journal, JournalFault, Kept};
use disk_core::{Disk, MemoryDisk, QuietDisk};
use std::alloc::Global;
use std::test::Fail;

// The bytes of a header, and then these bytes, cut to a size.
fn header_and(alloc: Global, behind: &[u8], size: usize) -> Vec<u8> {
    let mut bytes = copy(alloc, b"AQHBOOK2");
    let _ = bytes.extend_from_slice(&[0; 88]);
    let _ = bytes.extend_from_slice(behind);
    bytes.truncate(size);
    bytes
}

// So many bytes of one value.
fn many(alloc: Global, byte: u8, count: usize) -> Vec<u8> {
    vec![in alloc; byte; count].unwrap_or(Vec::new(alloc))
}

// Some bytes, of which the one at a place is this.
fn with_byte(bytes: Vec<u8>, place: usize, byte: u8) -> Vec<u8> {
    let mut bytes = bytes;
    if let Some(there) = bytes.get_mut(place) {
        *there = byte;
    }
    bytes
}

// How many rows are mounted of so many zeros, and of as many bytes of a header and open slots.
fn blank_rows(alloc: Global, size: usize) -> [Option<u32>; 2] {
    [
        mounted_rows(alloc, many(alloc, 0, size)),
        mounted_rows(alloc, header_and(alloc, &[1; 104], size)),
    ]
}

// The same, as it has to be.
fn rows_wanted(size: usize) -> [Option<u32>; 2] {
    [
        if size > 97 { None } else { Some(0) },
        Some(if size < 192 { 0 } else { 1 }),
    ]
}

// Whether each short disk is mounted so.
fn are_mounted(alloc: Global) -> bool {
    for size in 0..200usize {
        if blank_rows(alloc, size) != rows_wanted(size) {
            return false;
        }
    }
    true
}

#[test]
fn a_short_disk_is_made_a_journal(rt: HostRuntime) -> Result<(), Fail> {
    assert!(rt; are_mounted(rt.alloc()));
    Ok(())
}

// The rows of a disk whose second slot has this gate.
fn rows_before_gate(alloc: Global, gate: u8) -> Option<u32> {
    mounted_rows(
        alloc,
        with_byte(header_and(alloc, &[1; 192], 999), 192, gate),
    )
}

// Those of a disk of 586 bytes, whose sixth slot is cut.
fn rows_before_cut(alloc: Global) -> Option<u32> {
    let bytes = header_and(alloc, &[1; 490], 999);
    if bytes.len() == 586 {
        mounted_rows(alloc, bytes)
    } else {
        None
    }
}

#[test]
fn slots_that_are_cut_or_closed_end_the_rows(rt: HostRuntime) -> Result<(), Fail> {
    let alloc = rt.alloc();
    let rows = [
        rows_before_gate(alloc, 0),
        rows_before_gate(alloc, 2),
        rows_before_gate(alloc, 255),
        rows_before_cut(alloc),
    ];
    assert!(rt; rows == [Some(1), Some(1), Some(1), Some(5)]);
    Ok(())
}

// A byte of a header that is changed, and what is told.
const FOREIGN: [(usize, u8, Option<JournalFault>); 4] = [
    (3, 0, Some(JournalFault::NotJournal { place: 3 })),
    (7, b'1', Some(JournalFault::NotJournal { place: 7 })),
    (8, 9, None),
    (95, 1, Some(JournalFault::NotJournal { place: 95 })),
];

// Why a disk isn't mounted of which a byte is this.
fn byte_refused(alloc: Global, place: usize, byte: u8) -> Option<JournalFault> {
    let bytes = with_byte(header_and(alloc, &[0; 33], 999), place, byte);
    match Journal::mount(MemoryDisk::new(alloc, bytes, Vec::new(alloc))) {
        Ok(_) => None,
        Err(refused) => Some(refused.why),
    }
}

// Whether each foreign disk is told so.
fn are_refused(alloc: Global) -> bool {
    for (place, byte, why) in FOREIGN {
        if byte_refused(alloc, place, byte) != why {
            return false;
        }
    }
    true
}

// What a user reads of the faults.
fn are_texts(alloc: Global) -> bool {
    let foreign = JournalFault::NotJournal { place: 7 };
    let failed = JournalFault::Failed;
    match format!(in alloc; "{foreign}, {failed}") {
        Ok(text) => text.as_str() == "not a journal at 7, the disk failed",
        Err(_) => false,
    }
}

#[test]
fn a_foreign_disk_is_named_by_its_first_byte(rt: HostRuntime) -> Result<(), Fail> {
    assert!(rt; are_refused(rt.alloc()) && are_texts(rt.alloc()));
    Ok(())
}

// What a disk is mounted as: its rows, its snapshot, and how many calls it was asked.
type Mounted = (u32, Option<Kept>, usize);

// What a journal is, if its disk has so many bytes.
fn seen_of(journal: Journal<MemoryDisk>, size: usize) -> Option<Mounted> {
    let (count, kept) = (journal.count(), journal.kept());
    let disk = journal.give_back();
    if disk.bytes().len() == size {
        Some((count, kept, disk.calls_made()))
    } else {
        None
    }
}

// What these bytes are mounted as, if all of them stay.
fn whole_mounted(alloc: Global, bytes: Vec<u8>) -> Option<Mounted> {
    let size = bytes.len();
    match Journal::mount(MemoryDisk::new(alloc, bytes, Vec::new(alloc))) {
        Ok(journal) => seen_of(journal, size),
        Err(_) => None,
    }
}

// A million open slots and two more.
fn too_many(alloc: Global) -> Vec<u8> {
    header_and(alloc, &many(alloc, 1, 96 * 1_000_002), 96 * 1_000_003)
}

#[test]
fn no_more_than_a_million_and_one_slots_are_counted(rt: HostRuntime) -> Result<(), Fail> {
    let wanted = Some((1_000_001, None, 3 + 15_626));
    assert!(rt; whole_mounted(rt.alloc(), too_many(rt.alloc())) == wanted);
    Ok(())
}

// The head or the tail of a snapshot of a million rows.
fn block_of(kind: u8) -> [u8; 96] {
    let mut block = [0; 96];
    block[1..11].copy_from_slice(&[kind, 0x40, 0x42, 0x0f, 0, 1, 0, 0, 0, 0]);
    block
}

// A million open slots and one more, and a snapshot of a million rows.
fn full_with_snapshot(alloc: Global) -> Vec<u8> {
    let mut bytes = with_byte(header_and(alloc, &[], 96), 8, 1);
    let _ = bytes.extend_from_slice(&many(alloc, 1, 96 * 1_000_001));
    let _ = bytes.extend_from_slice(&block_of(83));
    let _ = bytes.extend_from_slice(&[0; 96]);
    let _ = bytes.extend_from_slice(&block_of(84));
    bytes
}

#[test]
fn a_full_journal_is_opened_by_its_snapshot(rt: HostRuntime) -> Result<(), Fail> {
    let kept = Kept {
        rows: 1_000_000,
        bytes: 1,
    };
    let wanted = Some((1_000_001, Some(kept), 6));
    assert!(rt; whole_mounted(rt.alloc(), full_with_snapshot(rt.alloc())) == wanted);
    Ok(())
}

// The rows and the size of a new journal on a disk that tells nothing.
fn quiet(alloc: Global) -> Option<(u32, Option<u64>)> {
    let room = Vec::with_capacity(alloc, 200).unwrap_or(Vec::new(alloc));
    match Journal::mount(QuietDisk::new(room)) {
        Ok(journal) => {
            let count = journal.count();
            Some((count, journal.give_back().len().ok()))
        }
        Err(_) => None,
    }
}

#[test]
fn a_journal_stands_on_a_disk_that_tells_nothing(rt: HostRuntime) -> Result<(), Fail> {
    assert!(rt; quiet(rt.alloc()) == Some((0, Some(97))));
    Ok(())
}
