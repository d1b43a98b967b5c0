use crate::books::worked;
use crate::copies::open_copy;
use crate::shipping::shipped;
use book_words::Entry;
use standby_hall::FollowError::{self, Extra, Gap, Head, ReadFault, Row};
use std::alloc::Global;
use std::test::Fail;

/// Shipments of the worked book into a copy of it, and what that is told.
#[derive(Clone, Copy)]
struct Case {
    /// How many rows the copy has.
    held: usize,
    /// Of how many rows each shipment is, and after how many.
    sent: &'static [(usize, u32)],
    /// How many may come.
    most: u32,
    /// How many bytes of them come.
    count: usize,
    /// Which byte is another.
    changed: Option<(usize, u8)>,
    /// Which read fails; none where it is 0.
    fails: u32,
    /// What it is told, and how many rows it has then.
    told: (Result<u32, FollowError>, u32),
}

// Two rows and then one, into a copy of three: 208 bytes and 112.
const TWO: Case = Case {
    held: 3,
    sent: &[(5, 3), (6, 5)],
    most: 2,
    count: 320,
    changed: None,
    fails: 0,
    told: (Ok(3), 6),
};

// Two rows twice.
const AGAIN: Case = Case {
    sent: &[(5, 3), (5, 3)],
    count: 416,
    told: (Ok(2), 5),
    ..TWO
};

// A row at a time.
const THREE: Case = Case {
    sent: &[(4, 3), (5, 4), (6, 5)],
    most: 3,
    count: 336,
    ..TWO
};

const CASES: [Case; 22] = [
    TWO,
    Case { most: 3, ..TWO },
    Case {
        most: 1,
        told: (Err(Extra), 5),
        ..TWO
    },
    THREE,
    Case {
        most: 2,
        told: (Err(Extra), 5),
        ..THREE
    },
    AGAIN,
    // nothing is new
    Case {
        held: 6,
        sent: &[(6, 6), (5, 5)],
        count: 32,
        told: (Ok(0), 6),
        ..TWO
    },
    // the input ends within a row, behind the head, within it, behind the first one, within that
    Case {
        count: 319,
        told: (Err(Row { row: 6 }), 5),
        ..TWO
    },
    Case {
        count: 224,
        told: (Err(Row { row: 6 }), 5),
        ..TWO
    },
    Case {
        count: 223,
        told: (Err(Head), 5),
        ..TWO
    },
    Case {
        count: 209,
        told: (Err(Head), 5),
        ..TWO
    },
    Case {
        count: 208,
        told: (Ok(2), 5),
        ..TWO
    },
    Case {
        count: 207,
        told: (Err(Row { row: 5 }), 4),
        ..TWO
    },
    // the second one is none; it begins too late; its last row isn't what the first one brought
    Case {
        changed: Some((208, b'X')),
        told: (Err(Head), 5),
        ..TWO
    },
    Case {
        sent: &[(4, 3), (6, 5)],
        count: 224,
        told: (Err(Gap { row: 5 }), 4),
        ..TWO
    },
    Case {
        changed: Some((334, 2)),
        told: (Err(Row { row: 5 }), 5),
        ..AGAIN
    },
    // the reads are those of a head, of each row, and of the end
    Case {
        fails: 3,
        told: (Err(ReadFault), 4),
        ..TWO
    },
    Case {
        fails: 4,
        told: (Err(ReadFault), 5),
        ..TWO
    },
    Case {
        fails: 5,
        told: (Err(ReadFault), 5),
        ..TWO
    },
    Case {
        fails: 6,
        told: (Err(ReadFault), 6),
        ..TWO
    },
    Case { fails: 7, ..TWO },
    // the first one begins too late
    Case {
        held: 2,
        told: (Err(Gap { row: 3 }), 2),
        ..TWO
    },
];

// Appends a shipment of some rows, after so many of them.
fn push_shipment(alloc: Global, bytes: &mut Vec<u8>, rows: &[Entry], after: u32) {
    let (_cut, one) = shipped(alloc, rows, after, &[]);
    let _ = bytes.extend_from_slice(&one);
}

// Puts another byte at a place, where one is to be changed.
fn change(bytes: &mut Vec<u8>, changed: Option<(usize, u8)>) {
    let Some((place, byte)) = changed else {
        return;
    };
    if let Some(there) = bytes.get_mut(place) {
        *there = byte;
    }
}

// The bytes of the shipments of a case.
fn bytes_of(alloc: Global, entries: &[Entry], case: &Case) -> Vec<u8> {
    let mut bytes = Vec::new(alloc);
    for (rows, after) in case.sent {
        if let Some(first) = entries.get(..*rows) {
            push_shipment(alloc, &mut bytes, first, *after);
        }
    }
    bytes.truncate(case.count);
    change(&mut bytes, case.changed);
    bytes
}

// Whether a case is told what it should be, and leaves the first rows of the book.
fn is_right(alloc: Global, entries: &[Entry], case: &Case) -> bool {
    let bytes = bytes_of(alloc, entries, case);
    let Some(mut copied) = open_copy(alloc, entries, case.held, &[]) else {
        return false;
    };
    let answer = copied.follow_several(alloc, &bytes, case.most, &[case.fails]);
    let told = (answer, copied.len());
    let has_front = copied.has_front(entries);
    let _ = copied.close();
    has_front && bytes.len() == case.count && told == case.told
}

// The place of the first case that goes another way.
fn first_wrong(alloc: Global, entries: &[Entry]) -> Option<usize> {
    for (place, case) in CASES.iter().enumerate() {
        if !is_right(alloc, entries, case) {
            return Some(place);
        }
    }
    None
}

#[test]
fn shipments_one_after_another(rt: HostRuntime) -> Result<(), Fail> {
    let entries = worked()?;
    assert_eq!(rt; first_wrong(rt.alloc(), &entries), None);
    Ok(())
}
