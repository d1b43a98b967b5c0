use book_words::{Act, Entry, Name, Prior, Unit};
use pack_judge::{Cause, Signal};
use std::fmt;

/// 2025-03-03 in days since 1970-01-01.
const MARCH_3: i32 = 20_150;

/// How many rows the long run has.
pub(crate) const ROWS: u32 = 20;

fn by_desk(desk: u16, request: u32, act: Act) -> Entry {
    Entry {
        by: 0,
        desk,
        request,
        act,
        signal: None,
    }
}

fn by_hall(act: Act) -> Entry {
    by_desk(0, 0, act)
}

/// A weighing on lane 1.
pub(crate) fn weighed(gross: i64, prior: Prior, signal: Signal) -> Entry {
    let lane = 1;
    Entry {
        by: 0,
        desk: 0,
        request: 0,
        act: Act::Weigh { lane, gross, prior },
        signal: Some(signal),
    }
}

fn product(name: Name) -> Act {
    Act::PutProduct {
        name,
        nominal: 250_000,
        unit: Unit::Mass,
    }
}

fn tare(product: Name, day: i32) -> Act {
    let tare = 10_000;
    Act::PutTare { product, day, tare }
}

fn batch_of(batch: Name, product: Name) -> Act {
    Act::OpenBatch {
        batch,
        product,
        density: 0,
    }
}

fn named(bytes: &[u8]) -> Result<Name, fmt::Error> {
    Name::new(bytes).ok_or(fmt::Error)
}

/// The entries of a run of the hall and two desks. The tolerable negative error of 250 g is 9 g,
/// so that a pack of 240 g with its package of 10 g, 230 g net, is inadequate, and a gross of 251 g
/// or more is good.
pub(crate) fn long_run() -> Result<[Entry; 20], fmt::Error> {
    let rice = named(b"rice250".as_slice())?;
    let beans = named(b"b".as_slice())?;
    let a = named(b"A".as_slice())?;
    let b = named(b"B".as_slice())?;
    let c = named(b"C".as_slice())?;
    Ok([
        by_hall(Act::NewDay { day: MARCH_3 }),
        by_hall(product(rice)),
        by_hall(tare(rice, MARCH_3)),
        by_hall(batch_of(a, rice)),
        by_hall(Act::StartLane { lane: 1, batch: a }),
        weighed(251_000, Prior::Nothing, Signal::Pass),
        weighed(261_000, Prior::Opened, Signal::Pass),
        weighed(240_000, Prior::Opened, Signal::Reject(Cause::Inadequate)),
        weighed(262_000, Prior::Nothing, Signal::Pass),
        by_desk(101, 1, product(beans)),
        by_desk(102, 1, batch_of(b, rice)),
        by_desk(101, 2, Act::Void { pack: 6 }),
        weighed(263_000, Prior::Opened, Signal::Pass),
        by_hall(Act::StopLane {
            lane: 1,
            prior: Prior::Opened,
        }),
        by_hall(Act::EndRun { batch: a }),
        by_desk(101, 3, Act::EndRun { batch: b }),
        by_hall(Act::NewDay { day: MARCH_3 + 1 }),
        by_desk(102, 2, tare(rice, MARCH_3 + 1)),
        by_hall(tare(beans, MARCH_3 + 1)),
        by_desk(101, 4, batch_of(c, beans)),
    ])
}

/// The entry of a number.
pub(crate) fn entry_at(entries: &[Entry], number: u32) -> Option<Entry> {
    entries.get((number as usize).wrapping_sub(1)).copied()
}
