//! A session of two callers, from its Turn to its end.
ghost use Rattle.std.specs.Prelude.{◌≡◌, ◌≤◌, [], IfOk, vec_capacity};
ghost use Rattle.book_store.specs.Stores.{Hangs, IsSound};
ghost use Rattle.shared_book.specs.Sessions.{Begins};
ghost use Rattle.shared_book.specs.Locked.{IsNewSeat};
ghost use Rattle.shared_book.specs.Passes.{IsPassOf, IsTurnOf};

use crate::asking::{ASKS, act_of, work};
use book_mount::mount;
use book_store::Store;
use book_words::Entry;
use disk_core::{Disk, QuietDisk};
use shared_book::{Closed, PassEnd, Session, Shared};
use std::alloc::{AllocError, Global};
use std::marker::Brand;
use std::sync::Wait;
use std::sync::atomic::AtomicU64;
use std::sync::ledger::{Blank, Ledger};
use std::test::Fail;
use std::thread;
use std::thread::Threads;
use turn_pass::{BookSeat, Turn};

// The seats of two callers, and room for them behind the session.
struct Seats<A: Ledger, B: Ledger> {
    first: PassEnd<A, B>,
    second: PassEnd<A, B>,
    ends: Vec<PassEnd<A, B>>,
}

// What a session came to: how many acts each caller was told, and how many faults.
struct Held<D: Disk> {
    store: Store<D>,
    told: (u32, u32),
    faults: u64,
}

// Both callers at once, each in a thread of its own where one can be made.
fn ask_at_once<
    D: Disk + Send,
    A: Ledger + Send + Sync,
    B: Ledger + Send + Sync,
    N: Session + Send + Sync,
    R: Threads + Wait + Sync,
>(
    rt: &R,
    shared: &Shared<D, A, B, N>,
    first: PassEnd<A, B>,
    second: PassEnd<A, B>,
) -> ((PassEnd<A, B>, u32), (PassEnd<A, B>, u32))
    requires first { IsPassOf N.Session first }
    requires second { IsPassOf N.Session second }
    ensures first { IsPassOf N.Session result.0.0 }
    ensures second { IsPassOf N.Session result.1.0 }
{
    let came = AtomicU64::new(0);
    let came = &came;
    thread::join(
        rt,
        move || work(rt, shared, first, came),
        move || work(rt, shared, second, came),
    )
}

// A session of these seats, which ends when both callers have asked.
fn hold<
    D: Disk + Send,
    A: Ledger + Send + Sync,
    B: Ledger + Send + Sync,
    N: Session + Send + Sync,
    R: Threads + Wait + Sync,
>(
    rt: &R,
    store: Store<D>,
    turn: Turn<Entry, A, B>,
    seat: BookSeat<Entry, A, B>,
    seats: Seats<A, B>,
) -> Held<D>
    requires sound { IsSound D.Disk store }
    requires begins { Begins D.Disk N.Session store }
    requires turn { IsTurnOf N.Session turn }
    requires seat { IsNewSeat N.Session seat }
    requires first { IsPassOf N.Session seats.first }
    requires second { IsPassOf N.Session seats.second }
    requires room { (seats.ends.items ≡ []) × (2 ≤ vec_capacity seats.ends) }
    requires parts { (A.parts ≡ 3) × (B.parts ≡ 3) }
{
    let Seats {
        first,
        second,
        mut ends,
    } = seats;
    let shared = Shared::<D, A, B, N>::new(store, turn, seat);
    let (one, two) = ask_at_once(rt, &shared, first, second);
    let ((first, told_first), (second, told_second)) = (one, two);
    ends.push_reserved(first);
    ends.push_reserved(second);
    let Closed { store, faults } = shared.close(ends);
    Held {
        store,
        told: (told_first, told_second),
        faults,
    }
}

// A session over a store in which nothing hangs; `None` where there is no memory to begin.
fn begin<
    D: Disk + Send + Drop,
    A: Ledger + Send + Sync,
    B: Ledger + Send + Sync,
    R: Threads + Wait + Sync,
>(rt: &R, alloc: Global, store: Store<D>, rows: Blank, faults: Blank) -> Option<Held<D>>
    requires sound { IsSound D.Disk store }
    requires calm { ¬ Hangs store }
    requires rows { (rows.name ≡ A.name) × (rows.parts ≡ A.parts) × (rows.parts ≡ 3) }
    requires faults { (faults.name ≡ B.name) × (faults.parts ≡ B.parts) × (faults.parts ≡ 3) }
{
    let Ok(ends) = Vec::with_capacity(alloc, 2) else {
        let _ = store.close();
        return None;
    };
    let Ok((turn, mut seat)) = Turn::<Entry, A, B>::begin(alloc, store.len(), rows, faults) else {
        let _ = store.close();
        return None;
    };
    let first = seat.pass(&turn, 1);
    let second = seat.pass(&turn, 2);
    let seats = Seats {
        first,
        second,
        ends,
    };
    Some(hold::<D, A, B, Brand, R>(rt, store, turn, seat, seats))
}

// How many rows are the acts of a caller, in their order.
fn count_own(rows: &[Entry], by: u16) -> u16 {
    let mut count: u16 = 0;
    for entry in rows {
        if entry.by == by && Some(entry.act) == act_of(by, count) {
            count = count.saturating_add(1);
        }
    }
    count
}

// What two callers are told over an empty disk, how many rows of each there are, how many rows in
// all, and how many faults.
type Outcome = ((u32, u32), (u16, u16), usize, u64);

fn outcome<R: Threads + Wait + Sync>(rt: &R, alloc: Global) -> Result<Option<Outcome>, AllocError> {
    let disk = QuietDisk::new(Vec::with_capacity(alloc, 1_000_000)?);
    let Ok(store) = mount(alloc, disk, 10_000) else {
        return Ok(None);
    };
    let (rows, faults) = (Blank::new(3), Blank::new(3));
    let held = begin::<QuietDisk, Brand, Brand, R>(rt, alloc, store, rows, faults);
    let Some(
        Held {
            store,
            told,
            faults,
        },
    ) = held
    else {
        return Ok(None);
    };
    let (_, rows) = store.close();
    let rows = rows.as_slice();
    let own = (count_own(rows, 1), count_own(rows, 2));
    Ok(Some((told, own, rows.len(), faults)))
}

#[test]
fn two_callers_at_once(rt: HostRuntime) -> Result<(), Fail> {
    let each = (u32::from(ASKS), u32::from(ASKS));
    let wanted = Some((each, (ASKS, ASKS), 2 * usize::from(ASKS), 0));
    assert_eq!(rt; outcome(&rt, rt.alloc())?, wanted);
    Ok(())
}
