use crate::books::long_run;
use crate::stores::{Told, copy, read_answer};
use book_mount::mount;
use book_store::{OneCaller, Store};
use book_words::{Act, Ask, Caller, Entry, Question, Want};
use disk_core::{Disk, MemoryDisk};
use std::alloc::Global;
use std::test::Fail;

const FIRST: u16 = 3;

const SECOND: u16 = 7;

// What a caller is told of the first act, of a question, and twice of the second act as another
// caller; how many faults it was answered; and whose the two rows are.
#[derive(Clone, Copy, PartialEq, Eq)]
struct Spoken {
    told: [Told; 4],
    faults: u64,
    by: [Option<u16>; 2],
    rows: u32,
}

const BY: [Option<u16>; 2] = [Some(FIRST), Some(SECOND)];

// Mounting makes four calls and each act four: call 9 writes the second row. Behind its row an act
// is refused, since the product is known.
const CASES: [(&[u32], Spoken); 2] = [
    (
        &[],
        Spoken {
            told: [
                Told::Row(1, None),
                Told::View,
                Told::Row(2, None),
                Told::Refused,
            ],
            faults: 0,
            by: BY,
            rows: 2,
        },
    ),
    (
        &[9],
        Spoken {
            told: [
                Told::Row(1, None),
                Told::View,
                Told::DiskFault,
                Told::Row(2, None),
            ],
            faults: 1,
            by: BY,
            rows: 2,
        },
    ),
];

fn asked(want: Want) -> Ask {
    Ask {
        desk: 0,
        request: 0,
        want,
    }
}

// What a want is told.
fn told<D: Disk>(caller: &mut OneCaller<D>, want: Want) -> Told {
    read_answer(&caller.ask(&asked(want)))
}

// Whose a row is.
fn by_of<D: Disk>(store: &Store<D>, number: u32) -> Option<u16> {
    Some(store.entry(number)?.by)
}

// Asks two acts and a question.
fn speak<D: Disk>(caller: &mut OneCaller<D>, first: Act, second: Act) -> Spoken {
    let one = told(caller, Want::Act(first));
    let view = told(caller, Want::Question(Question::Summary));
    caller.turn(SECOND);
    let two = told(caller, Want::Act(second));
    let again = told(caller, Want::Act(second));
    Spoken {
        told: [one, view, two, again],
        faults: caller.faults(),
        by: [by_of(caller.store(), 1), by_of(caller.store(), 2)],
        rows: 0,
    }
}

// The same over an empty disk of which these calls fail. The store that is given back has the rows.
fn speak_over(alloc: Global, fails: &[u32], entries: &[Entry; 20]) -> Option<Spoken> {
    let disk = MemoryDisk::new(alloc, Vec::new(alloc), copy(alloc, fails));
    let Ok(store) = mount(alloc, disk, 2) else {
        return None;
    };
    let mut caller = OneCaller::new(store, FIRST);
    let spoken = speak(&mut caller, entries[0].act, entries[1].act);
    let (_, rows) = caller.back().close();
    let rows = rows.as_slice().len() as u32;
    Some(Spoken { rows, ..spoken })
}

// Whether each case comes out so.
fn are_spoken(alloc: Global, entries: &[Entry; 20]) -> bool {
    for (fails, wanted) in &CASES {
        if speak_over(alloc, fails, entries) != Some(*wanted) {
            return false;
        }
    }
    true
}

#[test]
fn one_caller_and_its_faults(rt: HostRuntime) -> Result<(), Fail> {
    assert!(rt; are_spoken(rt.alloc(), &long_run()?));
    Ok(())
}
