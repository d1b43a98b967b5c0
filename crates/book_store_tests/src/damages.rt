use crate::books::long_run;
use crate::stores::{LOOK, Seen, Way, copy, use_bytes};
use book_mount::MountError;
use book_words::Entry;
use std::alloc::Global;
use std::test::Fail;

const TWO_ROWS: Way = Way {
    rows: 2,
    rests: true,
    ..LOOK
};

// The last of these rows is another day.
const TWO_DAYS: Way = Way { rows: 17, ..LOOK };

// How a changed disk is opened.
#[derive(Clone, Copy)]
enum Kind {
    // It isn't a journal, at the byte that was changed.
    NotJournal,
    // It has so many of the two rows.
    Rows(u32),
    // It has two rows, and not the same ones.
    Other,
    // This row is damaged.
    Damaged(u32),
}

use Kind::{Damaged, NotJournal, Other, Rows};

// The first place of a range, the place behind its last, and how the disk is opened where a byte
// of the range is 1 more, and where it is 128 more.
type Range = (usize, usize, Kind, Kind);

// The day 2025-03-03 and a product rice250 of 250 g, whose dense forms are 12 and 46 bytes. The
// slots stand at 96 and 192, the closed gate at 288, the head of the snapshot at 384, its content
// at 482 to 539, and its tail at 576.
const BY_SNAPSHOT: [Range; 17] = [
    // the header, and its mark
    (0, 8, NotJournal, NotJournal),
    (8, 9, Rows(2), Rows(2)),
    (9, 96, NotJournal, NotJournal),
    // slots for which the snapshot stands
    (96, 288, Rows(2), Rows(2)),
    // the gate behind the rows: an open one has a row without a kind
    (288, 289, Damaged(3), Rows(2)),
    // zeros, the head, and what isn't looked at of the content block
    (289, 482, Rows(2), Rows(2)),
    // row 1: its size and kind, its caller, desk and request, and its day
    (482, 484, Damaged(1), Damaged(1)),
    (484, 486, Other, Other),
    (486, 492, Damaged(1), Damaged(1)),
    (492, 494, Other, Other),
    // row 2: its size and kind, its caller, desk and request, and the length of the name
    (494, 496, Damaged(2), Damaged(2)),
    (496, 498, Other, Other),
    (498, 505, Damaged(2), Damaged(2)),
    // the name, of which no byte may be outside ASCII, the zeros behind it, and the mass
    (505, 512, Other, Damaged(2)),
    (512, 537, Damaged(2), Damaged(2)),
    (537, 540, Other, Other),
    // what fills up the block, and the tail: where none fits the slots are read
    (540, 672, Rows(2), Rows(2)),
];

// The same disk with the mark 0, which is opened by its slots.
const BY_SLOTS: [Range; 22] = [
    (0, 8, NotJournal, NotJournal),
    // 1 is the mark again
    (8, 9, Rows(2), Rows(2)),
    (9, 96, NotJournal, NotJournal),
    // row 1: its gate, its kind and number
    (96, 97, Rows(0), Rows(0)),
    (97, 102, Damaged(1), Damaged(1)),
    // its caller, desk and request
    (102, 104, Other, Other),
    (104, 110, Damaged(1), Damaged(1)),
    // its day of at most 2 932 896, and zeros
    (110, 112, Other, Other),
    (112, 113, Other, Damaged(1)),
    (113, 192, Damaged(1), Damaged(1)),
    // row 2: its gate, its kind and number
    (192, 193, Rows(1), Rows(1)),
    (193, 198, Damaged(2), Damaged(2)),
    // its caller, desk and request, and the length of the name
    (198, 200, Other, Other),
    (200, 207, Damaged(2), Damaged(2)),
    // the name, and the zeros behind it
    (207, 214, Other, Damaged(2)),
    (214, 239, Damaged(2), Damaged(2)),
    // its mass of at most 10 kg
    (239, 242, Other, Other),
    (242, 247, Damaged(2), Damaged(2)),
    // its unit: 1 is volume
    (247, 248, Other, Damaged(2)),
    (248, 288, Damaged(2), Damaged(2)),
    // the closed gate, and what stands behind it
    (288, 289, Damaged(3), Rows(2)),
    (289, 672, Rows(2), Rows(2)),
];

// Whether a disk is opened so of which the byte at a place was changed.
fn is_kind(seen: Seen, place: usize, kind: Kind) -> bool {
    match kind {
        NotJournal => seen.why
            == Some(MountError::NotJournal {
                place: place as u64,
            }),
        Rows(rows) => seen.right && seen.held == rows,
        Other => !seen.right && seen.why.is_none() && seen.held == 2,
        Damaged(row) => seen.why == Some(MountError::Damaged { row }),
    }
}

// Some bytes, of which the one at a place is so much more.
fn changed(alloc: Global, bytes: &[u8], place: usize, more: u8) -> Vec<u8> {
    let mut all = copy(alloc, bytes);
    if let Some(byte) = all.get_mut(place) {
        *byte = byte.wrapping_add(more);
    }
    all
}

// Whether a disk of which the byte at a place is so much more is opened so, and left as it was.
fn is_opened_so(
    alloc: Global,
    bytes: &[u8],
    change: (usize, u8),
    entries: &[Entry],
    kind: Kind,
) -> bool {
    let (place, more) = change;
    let changed = changed(alloc, bytes, place, more);
    let used = use_bytes(alloc, &changed, entries, LOOK);
    is_kind(used.seen, place, kind) && used.disk.bytes() == changed.as_slice()
}

// The first place of a range at which another byte isn't seen as it has to be. The gate behind the
// rows stands closed in each such disk, so that none is written to.
fn wrong_place(alloc: Global, bytes: &[u8], range: &Range, entries: &[Entry]) -> Option<usize> {
    let (from, end, one, high) = *range;
    for place in from..end {
        if !is_opened_so(alloc, bytes, (place, 1), entries, one)
            || !is_opened_so(alloc, bytes, (place, 128), entries, high)
        {
            return Some(place);
        }
    }
    None
}

// The same of some ranges.
fn wrong_byte(alloc: Global, bytes: &[u8], ranges: &[Range], entries: &[Entry]) -> Option<usize> {
    for range in ranges {
        let wrong = wrong_place(alloc, bytes, range, entries);
        if wrong.is_some() {
            return wrong;
        }
    }
    None
}

// The bytes of a book that is taken so far; of none where it comes out otherwise.
fn bytes_of(alloc: Global, entries: &[Entry], way: Way) -> Vec<u8> {
    let used = use_bytes(alloc, &[], entries, way);
    if used.seen.right {
        copy(alloc, used.disk.bytes())
    } else {
        Vec::new(alloc)
    }
}

// Whether each byte of the two rows with their snapshot is seen.
fn are_kept_seen(alloc: Global, bytes: &[u8], entries: &[Entry]) -> bool {
    bytes.len() == 672 && wrong_byte(alloc, bytes, &BY_SNAPSHOT, entries).is_none()
}

// Whether it is seen without the mark.
fn are_slots_seen(alloc: Global, bytes: &[u8], entries: &[Entry]) -> bool {
    wrong_byte(alloc, &changed(alloc, bytes, 8, 255), &BY_SLOTS, entries).is_none()
}

// Whether of seventeen rows the last is damaged where its day, at place 14 of its slot, is the one
// before the first.
fn is_day_seen(alloc: Global, entries: &[Entry]) -> bool {
    let days = bytes_of(alloc, entries, TWO_DAYS);
    is_opened_so(alloc, &days, (17 * 96 + 14, 254), entries, Damaged(17))
}

// All of these.
fn are_seen(alloc: Global, entries: &[Entry]) -> bool {
    let bytes = bytes_of(alloc, entries, TWO_ROWS);
    are_kept_seen(alloc, &bytes, entries)
        && are_slots_seen(alloc, &bytes, entries)
        && is_day_seen(alloc, entries)
}

#[test]
fn each_byte_of_a_book(rt: HostRuntime) -> Result<(), Fail> {
    assert!(rt; are_seen(rt.alloc(), &long_run()?));
    Ok(())
}
