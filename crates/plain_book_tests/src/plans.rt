//! Batches of the least population of each plan with a second sample. The last takes too many rows
//! for drawn asks, and the plain book would walk too long to judge each weighing: it takes over
//! those of the book, and every ask behind them is compared.

use crate::drawn_acts::Names;
use crate::met::{DRAWS, Met, VERDICTS};
use crate::pair::{Pair, Stop};
use annex_tables::Mode;
use book_words::{Act, Ask, Name, Prior, Question, Unit, Want};
use plain_book::sample_of;
use std::alloc::Global;
use std::test::Fail;

// A batch: its population, and how many packs of each sample are low. The first sample alone then
// decides nothing, and both together have just as many as are accepted.
#[derive(Clone, Copy)]
struct Lot {
    packs: u32,
    lows: u32,
}

const LOTS: [Lot; 3] = [
    Lot {
        packs: 100,
        lows: 2,
    },
    Lot {
        packs: 501,
        lows: 3,
    },
    Lot {
        packs: 3_201,
        lows: 4,
    },
];

// The most rows of the books.
const LIMIT: u32 = 4_000;

// In mg.
const NOMINAL: i64 = 250_000;

const TARE: i64 = 10_000;

// A pack that is full, and one that is below one error, in mg with its tare.
const FULL: i64 = 260_000;

const LOW: i64 = 250_999;

// 2025-03-02.
const DAY: i32 = 20_149;

fn asked(act: Act) -> Ask {
    Ask {
        desk: 0,
        request: 0,
        want: Want::Act(act),
    }
}

// A day, a product with its tare, and a batch that runs on a lane.
fn opening(product: Name, batch: Name) -> [Act; 5] {
    [
        Act::NewDay { day: DAY },
        Act::PutProduct {
            name: product,
            nominal: NOMINAL,
            unit: Unit::Mass,
        },
        Act::PutTare {
            product,
            day: DAY,
            tare: TARE,
        },
        Act::OpenBatch {
            batch,
            product,
            density: 0,
        },
        Act::StartLane { lane: 1, batch },
    ]
}

// The end of the run, and a sample.
fn ending(batch: Name) -> [Act; 3] {
    [
        Act::StopLane {
            lane: 1,
            prior: Prior::Opened,
        },
        Act::EndRun { batch },
        Act::Draw {
            batch,
            mode: Mode::Keep,
            word: 7,
        },
    ]
}

fn ask_each(pair: &mut Pair, met: &mut Met, acts: &[Act]) -> Result<(), Stop> {
    for one in acts {
        pair.ask(met, &asked(*one))?;
    }
    Ok(())
}

// Weighs so many full packs, of which the book alone judges the signals.
fn weigh(pair: &mut Pair, many: u32) -> Result<(), Stop> {
    for number in 0..many {
        let prior = if number == 0 {
            Prior::Nothing
        } else {
            Prior::Opened
        };
        pair.follow(&asked(Act::Weigh {
            lane: 1,
            gross: FULL,
            prior,
        }))?;
    }
    Ok(())
}

// Measures the packs of a sample, of which so many are low.
fn measure(pair: &mut Pair, met: &mut Met, packs: &[u64], lows: u32) -> Result<(), Stop> {
    let mut done: u32 = 0;
    for pack in packs {
        let gross = if done < lows { LOW } else { FULL };
        let pack = u32::try_from(*pack).unwrap_or(0);
        done = done.saturating_add(1);
        pair.ask(
            met,
            &asked(Act::Measure {
                pack,
                gross,
                empty: 0,
            }),
        )?;
    }
    Ok(())
}

// What is told of the samples of a batch, and of the batch; it is then asked to be closed.
fn close(pair: &mut Pair, met: &mut Met, batch: Name) -> Result<(), Stop> {
    pair.question(met, Question::Sample { batch })?;
    pair.question(met, Question::Sheet { batch })?;
    pair.ask(met, &asked(Act::Close { batch }))
}

// The tests of both samples of a batch that was drawn from, with so many low packs in each.
fn test(alloc: Global, pair: &mut Pair, met: &mut Met, batch: Name, lows: u32) -> Result<(), Stop> {
    if let Some(sample) = sample_of(alloc, pair.plain().entries(), batch)? {
        measure(pair, met, &sample.first, lows)?;
    }
    close(pair, met, batch)?;
    pair.ask(met, &asked(Act::DrawSecond { batch, word: 8 }))?;
    if let Some(sample) = sample_of(alloc, pair.plain().entries(), batch)? {
        measure(pair, met, &sample.second, lows)?;
    }
    close(pair, met, batch)?;
    pair.question(met, Question::Sheet { batch })
}

// Gives both books a batch, from its opening to its verdict.
fn lead_both(
    alloc: Global,
    pair: &mut Pair,
    met: &mut Met,
    names: &Names,
    lot: &Lot,
) -> Result<(), Stop> {
    let batch = names.batches[0];
    ask_each(pair, met, &opening(names.products[0], batch))?;
    weigh(pair, lot.packs)?;
    ask_each(pair, met, &ending(batch))?;
    test(alloc, pair, met, batch, lot.lows)
}

// Compares two books on a batch.
fn compare_batches(alloc: Global, names: &Names, lot: &Lot, met: &mut Met) -> Result<(), Stop> {
    let mut pair = Pair::new(alloc, LIMIT);
    let compared = lead_both(alloc, &mut pair, met, names, lot);
    pair.close(compared)
}

// Refusals of closings, where a second sample is needed.
const SECOND_NEEDED: usize = 33;

#[test]
fn a_plain_reading_of_each_plan_gives_the_same_answers(rt: HostRuntime) -> Result<(), Fail> {
    let names = Names::new()?;
    let mut met = Met::nothing();
    for lot in &LOTS {
        let compared = compare_batches(rt.alloc(), &names, lot, &mut met);
        assert!(rt; compared.is_ok(), "{compared:?}");
    }
    assert!(rt; met.counts[DRAWS..] == [3, 0, 3]);
    assert!(rt; met.counts[VERDICTS..43] == [0, 3, 0]);
    assert!(rt; met.counts[SECOND_NEEDED] == 3);
    Ok(())
}
