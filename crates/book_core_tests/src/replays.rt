use crate::begun::{MARCH_3, entry_of, named, pass, setup, take_all, take_from, weigh};
use book_core::{Book, ReplayError};
use book_words::{Act, Entry, Prior};
use pack_judge::{Cause, Signal};
use std::alloc::Global;
use std::test::Fail;

// A small day: five rows of the hall, a sixth that a desk asked for, and a weighing.
fn take_day(book: &mut Book, acts: &[Act]) {
    take_all(book, acts);
    take_from(book, 101, 1, &Act::NewDay { day: MARCH_3 });
    take_from(book, 0, 0, &weigh(260_000, Prior::Nothing));
}

// Whether another book takes each entry of a book.
fn replay_all(book: &Book, other: &mut Book) -> bool {
    for number in 1..=book.len() {
        let Some(entry) = book.entry(number) else {
            return false;
        };
        if other.replay(entry).is_err() {
            return false;
        }
    }
    true
}

// Whether two books have the same entries.
fn have_same(book: &Book, other: &Book) -> bool {
    for number in 1..=book.len() {
        if book.entry(number) != other.entry(number) {
            return false;
        }
    }
    book.len() == other.len()
}

// Whether a book takes an entry neither at once nor in two steps.
fn is_unlawful(book: &mut Book, entry: Entry) -> bool {
    book.replay(entry) == Err(ReplayError::Unlawful) && book.admit(&entry).is_err()
}

// Whether an entry is admitted, and passes as the row 8.
fn is_admitted(book: &mut Book, entry: &Entry) -> bool {
    match book.admit(entry) {
        Ok(ready) => book.enter(ready) == pass(8),
        Err(_) => false,
    }
}

// Whether a day that is replayed into another book stands there, whatever its limit is, and an
// entry that repeats the desk's or has another signal than it gets leaves it as it is.
fn is_replayed(book: &mut Book, other: &mut Book, acts: &[Act]) -> bool {
    take_day(book, acts);
    let Some(asked) = book.entry(6) else {
        return false;
    };
    let behind = weigh(262_000, Prior::Opened);
    let rejected = entry_of(behind, Signal::Reject(Cause::Inadequate));
    replay_all(book, other)
        && is_unlawful(other, asked)
        && is_unlawful(other, rejected)
        && have_same(book, other)
        && is_admitted(other, &entry_of(behind, Signal::Pass))
}

// Replays a day into a book of one row at most; both give back their rows. No other function owns a
// book.
fn replayed_day(alloc: Global, acts: &[Act]) -> bool {
    let mut book = Book::new(alloc, 100);
    let mut other = Book::new(alloc, 1);
    let replayed = is_replayed(&mut book, &mut other, acts);
    let rows = book.rows();
    let others = other.rows();
    replayed && rows.as_slice().len() == 7 && others.as_slice().len() == 8
}

#[test]
fn a_replayed_day(rt: HostRuntime) -> Result<(), Fail> {
    let acts = setup(named(b"rice250".as_slice())?, named(b"A".as_slice())?);
    assert!(rt; replayed_day(rt.alloc(), &acts));
    Ok(())
}
