//! What a caller asks, on a thread of its own.
ghost use Rattle.shared_book.specs.Passes.{IsPassOf};

use book_words::{Act, Ask, Caller, Name, Unit, Want};
use disk_core::Disk;
use shared_book::{PassEnd, Session, Shared};
use std::sync::Wait;
use std::sync::atomic::{AtomicU64, Ordering};
use std::sync::ledger::Ledger;
use std::thread;

/// How many acts each caller asks.
pub const ASKS: u16 = 500;

// How often a caller looks for the other.
const LOOKS: u32 = 100_000_000;

// Waits for the other caller, and tells whether it came.
fn meet(came: &AtomicU64) -> bool {
    came.fetch_add(1, Ordering::SeqCst);
    for _look in 0..LOOKS {
        if came.load(Ordering::SeqCst) >= 2 {
            return true;
        }
        thread::yield_now();
    }
    false
}

fn digit(number: u16) -> u8 {
    b'0' + (number % 10) as u8
}

// 2025-03-03.
const DAY: i32 = 20_150;

/// The act that a caller asks behind so many others: the day, and then products of its own.
pub fn act_of(by: u16, place: u16) -> Option<Act> {
    if place == 0 {
        return Some(Act::NewDay { day: DAY });
    }
    let name = Name::new(&[
        b'p',
        digit(by),
        digit(place / 100),
        digit(place / 10),
        digit(place),
    ])?;
    Some(Act::PutProduct {
        name,
        nominal: 250_000,
        unit: Unit::Mass,
    })
}

// Asks all acts of a caller, and tells how many were accepted, each in a row behind that before.
fn ask_all<C: Caller>(caller: &mut C, by: u16) -> u32 {
    let mut accepted: u32 = 0;
    let mut last: u32 = 0;
    for place in 0..ASKS {
        let Some(act) = act_of(by, place) else {
            return 0;
        };
        let ask = Ask {
            desk: 0,
            request: 0,
            want: Want::Act(act),
        };
        if let Ok(answered) = caller.ask(&ask)
            && answered.at > last
        {
            last = answered.at;
            accepted = accepted.saturating_add(1);
        }
    }
    accepted
}

/// Asks as the caller of this seat, once the other caller is there too. Gives the seat back, and
/// tells how many acts were accepted.
pub fn work<D: Disk, A: Ledger, B: Ledger, N: Session, R: Wait>(
    rt: &R,
    shared: &Shared<D, A, B, N>,
    seat: PassEnd<A, B>,
    came: &AtomicU64,
) -> (PassEnd<A, B>, u32)
    requires pass { IsPassOf N.Session seat }
    ensures pass { IsPassOf N.Session result.0 }
{
    let by = seat.by();
    let mut pass = shared.pass(rt, seat);
    let accepted = if meet(came) {
        ask_all(&mut pass, by)
    } else {
        0
    };
    (pass.end(), accepted)
}
