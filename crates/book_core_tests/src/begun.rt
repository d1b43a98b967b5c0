//! A book that has begun, and the acts that tests ask of it.

use book_core::Book;
use book_words::{Act, Answered, Ask, Entry, Name, Prior, Reply, Unit, Want};
use pack_judge::Signal;
use std::fmt;

/// 2025-03-03 in days since 1970-01-01.
pub const MARCH_3: i32 = 20_150;

/// What a weighing in a row is told that passes.
pub fn pass(row: u32) -> Answered {
    Answered {
        at: row,
        reply: Reply::Judged {
            row,
            signal: Signal::Pass,
        },
    }
}

/// A weighing on the lane 1.
pub fn weigh(gross: i64, prior: Prior) -> Act {
    Act::Weigh {
        lane: 1,
        gross,
        prior,
    }
}

/// The entry of an act of the lane 1, with its signal.
pub fn entry_of(act: Act, signal: Signal) -> Entry {
    Entry {
        by: 1,
        desk: 0,
        request: 0,
        act,
        signal: Some(signal),
    }
}

/// The ask of a desk for an act.
pub fn asked(desk: u16, request: u32, act: &Act) -> Ask {
    Ask {
        desk,
        request,
        want: Want::Act(*act),
    }
}

/// Takes an act of a desk.
pub fn take_from(book: &mut Book, desk: u16, request: u32, act: &Act) {
    let _ = book.ask(0, &asked(desk, request, act));
}

/// Takes some acts of the hall itself.
pub fn take_all(book: &mut Book, acts: &[Act]) {
    for act in acts {
        take_from(book, 0, 0, act);
    }
}

pub fn named(bytes: &[u8]) -> Result<Name, fmt::Error> {
    Name::new(bytes).ok_or(fmt::Error)
}

/// A day, a product of 250 g with a tare of 10 g, a batch and a lane that weighs it: five rows.
/// The tolerable negative error is 9 g, so the limits of the net are 241 g and 232 g.
pub fn setup(product: Name, batch: Name) -> [Act; 5] {
    [
        Act::NewDay { day: MARCH_3 },
        Act::PutProduct {
            name: product,
            nominal: 250_000,
            unit: Unit::Mass,
        },
        Act::PutTare {
            product,
            day: MARCH_3,
            tare: 10_000,
        },
        Act::OpenBatch {
            batch,
            product,
            density: 0,
        },
        Act::StartLane { lane: 1, batch },
    ]
}
