use crate::cells::{TestCell, cell_of, gives};
use disk_core::Failed;
use lane_worker::Cell;
use memory_hall::CellItem;
use std::alloc::Global;
use std::test::Fail;

// What a scale says in a session, and what it sends.
const SESSION: &[u8] = b"1 251\n2 260.5\n3 end\n";

const SENT: [CellItem; 3] = [
    CellItem::Gross(251_000),
    CellItem::Gross(260_500),
    CellItem::End,
];

// The calls of the door in one whole session: it is admitted, each byte is read, and each of its
// lines is acknowledged.
const CALLS: u32 = 1 + 20 + 3;

// The first place at which a session doesn't give all that was sent where its first connection is
// cut there, and the scale begins again.
fn first_wrong_cut(alloc: Global) -> Option<usize> {
    for cut in 0..SESSION.len() {
        let (begun, _) = SESSION.split_at(cut);
        let mut cell = cell_of(alloc, &[begun, SESSION], &[]);
        if !gives(&mut cell, &SENT) {
            return Some(cut);
        }
    }
    None
}

// How often a cell fails before it gives all that was sent, if it does.
fn fails_before(cell: &mut TestCell) -> Option<u32> {
    let mut failed: u32 = 0;
    for item in &SENT {
        let mut given = cell.next();
        if given == Err(Failed) {
            failed = failed.saturating_add(1);
            given = cell.next();
        }
        if given != Ok(item.next()) {
            return None;
        }
    }
    Some(failed)
}

// The first call of the door that doesn't come out right where it fails, over a session of which
// its scale begins anew: only where the first connection can't be admitted does the cell fail.
fn first_wrong_call(alloc: Global) -> Option<u32> {
    for call in 1..CALLS + 1 {
        let mut cell = cell_of(alloc, &[SESSION, SESSION], &[call]);
        if fails_before(&mut cell) != Some(u32::from(call == 1)) {
            return Some(call);
        }
    }
    None
}

// A connection whose second line would end the session, and what the scale says on the next one.
const ENDING: &[u8] = b"1 251\n2 end\n";

// The calls that read that second line: it comes behind the admission, six bytes and one line
// written.
const FIRST_OF_END: u32 = 9;

const LAST_OF_END: u32 = 14;

// The first read of a line at whose failure its connection isn't left at once, so that something
// behind the failure counts.
fn first_read_on(alloc: Global) -> Option<u32> {
    for call in FIRST_OF_END..LAST_OF_END + 1 {
        let mut cell = cell_of(alloc, &[ENDING, SESSION], &[call]);
        if !gives(&mut cell, &SENT) {
            return Some(call);
        }
    }
    None
}

// Whether a second connection that can't be admitted is admitted at the next call.
fn is_admitted_again(alloc: Global) -> bool {
    let mut cell = cell_of(alloc, &[b"1 25", SESSION], &[7]);
    cell.next() == Err(Failed) && gives(&mut cell, &SENT)
}

#[test]
fn sessions_go_on(rt: HostRuntime) -> Result<(), Fail> {
    assert_eq!(rt; first_wrong_cut(rt.alloc()), None);
    assert_eq!(rt; first_wrong_call(rt.alloc()), None);
    assert_eq!(rt; first_read_on(rt.alloc()), None);
    assert!(rt; is_admitted_again(rt.alloc()));
    Ok(())
}
