//! Worked numbers, grosses in all orders, drawn calls, and places that were reserved. What owns a
//! hall is costly to prove, so most cases share one, and each tells what is wrong first.

ghost use Rattle.std.specs.Prelude.{◌<◌};

use crate::hall::Hall;
use crate::row::corrected_totals;
use annex_tables::Limits;
use batch_sums::{NoMemory, Pack};
use hall_limits::{MAX_GROSS, MAX_TARE};
use pack_judge::{Pile, Span, Tally};
use rand_core::utils::NextWord;
use rand_pcg::Pcg32;
use std::alloc::Global;
use std::marker::Brand;
use std::sync::ledger::Blank;
use std::test::Fail;

// The limits of a nominal quantity of 250 g.
const LIMITS: Limits = Limits {
    t1: 241_000,
    t2: 232_000,
    tne: 9_000,
};

const ALL_DAYS: Span = Span {
    from: 0,
    until: None,
};

const PILES: [Pile; 4] = [Pile::Passed, Pile::Rejected, Pile::Sampled, Pile::Voided];

#[test]
fn a_corrected_tare_reaches_10_000_packs(rt: HostRuntime) -> Result<(), Fail> {
    let after = corrected_totals::<Brand>(rt.alloc(), LIMITS, Blank::new(1))?;
    let passed = Tally {
        count: 10_000,
        gross: 2_600_000_000,
    };
    assert!(rt; after.passed == passed && after.population == 10_000);
    assert!(rt; after.net == 2_400_000_000 && after.nonstandard == 10_000 && after.inadequate == 0);
    Ok(())
}

// Gross, tare, the two limits, and how many of two packs are below each.
const NETS: [(i64, i64, i64, i64, u32, u32); 10] = [
    (251_000, 10_000, 241_000, 232_000, 0, 0),
    (250_999, 10_000, 241_000, 232_000, 2, 0),
    (242_000, 10_000, 241_000, 232_000, 2, 0),
    (241_999, 10_000, 241_000, 232_000, 2, 2),
    (0, MAX_TARE, -MAX_TARE, -MAX_TARE, 0, 0),
    (0, MAX_TARE, 1 - MAX_TARE, -MAX_TARE, 2, 0),
    (MAX_GROSS, 0, MAX_GROSS, MAX_GROSS, 0, 0),
    (MAX_GROSS, 0, MAX_GROSS + 1, MAX_GROSS, 2, 0),
    (MAX_GROSS, MAX_TARE, i64::MAX, i64::MIN, 2, 0),
    (0, 0, i64::MIN, i64::MAX, 0, 2),
];

// A net that is equal to a limit is not below it. Tells the first row that is wrong.
fn wrong_net(hall: &mut Hall, alloc: Global) -> Result<Option<u32>, NoMemory> {
    let mut place = 0u32;
    for (gross, tare, t1, t2, nonstandard, inadequate) in NETS {
        hall.empty(alloc, 1);
        let batch = hall.add_batch(0, Limits { t1, t2, tne: 0 })?;
        hall.add(batch, gross, Pile::Sampled)?;
        hall.correct(0, ALL_DAYS, tare);
        hall.add(batch, gross, Pile::Passed)?;
        let Some(totals) = hall.totals(batch) else {
            return Ok(Some(place));
        };
        if totals.nonstandard != nonstandard || totals.inadequate != inadequate {
            return Ok(Some(place));
        }
        place = place.wrapping_add(1);
    }
    Ok(None)
}

// Three batches of two products, and packs of two days. At the end of the first the tare of product
// 1 was corrected, and that of product 2 was not; at the end three packs went to another pile.
fn take_two_days(hall: &mut Hall, alloc: Global) -> Result<(), NoMemory> {
    hall.empty(alloc, 10_000);
    for product in [1, 2, 1] {
        hall.add_batch(product, LIMITS)?;
    }
    hall.add(2, 260_000, Pile::Passed)?;
    hall.add(0, 250_000, Pile::Rejected)?;
    hall.add(2, 240_000, Pile::Sampled)?;
    hall.add(1, 255_000, Pile::Voided)?;
    hall.add(2, 251_000, Pile::Passed)?;
    hall.correct(1, ALL_DAYS, 9_000);
    hall.add(2, 245_000, Pile::Voided)?;
    hall.shift(2, Pile::Voided);
    hall.shift(3, Pile::Sampled);
    hall.shift(5, Pile::Passed);
    Ok(())
}

// Number, batch, day, gross, tare and pile of packs of the two days.
const PACKS: [(u32, u32, i32, i64, i64, Pile); 5] = [
    (0, 2, 0, 260_000, 9_000, Pile::Passed),
    (1, 0, 0, 250_000, 9_000, Pile::Rejected),
    (2, 2, 0, 240_000, 9_000, Pile::Voided),
    (3, 1, 0, 255_000, 10_000, Pile::Sampled),
    (5, 2, 1, 245_000, 9_000, Pile::Passed),
];

// Whether each pack is told as it now is, and the piles are those of all batches.
fn are_packs_told(hall: &Hall) -> bool {
    for (number, batch, day, gross, tare, pile) in PACKS {
        let pack = Pack {
            number,
            batch,
            day,
            gross,
            tare,
            pile,
        };
        if hall.sums.pack(number) != Some(pack) {
            return false;
        }
    }
    let piles = hall.sums.piles();
    hall.sums.pack(6).is_none()
        && piles.passed.count == 3
        && piles.passed.gross == 756_000
        && piles.rejected.count == 1
        && piles.rejected.gross == 250_000
        && piles.sampled.count == 1
        && piles.sampled.gross == 255_000
        && piles.voided.count == 1
        && piles.voided.gross == 240_000
}

const POPULATIONS: [(u32, &[u64]); 3] = [(0, &[]), (1, &[3]), (2, &[0, 4, 5])];

// Whether each population is told in the order of its packs.
fn are_populations_told(hall: &Hall, alloc: Global) -> Result<bool, NoMemory> {
    for (batch, numbers) in POPULATIONS {
        let Some(told) = hall.population(alloc, batch)? else {
            return Ok(false);
        };
        if told.as_slice() != numbers {
            return Ok(false);
        }
    }
    Ok(true)
}

// A batch, a number, how many at most, and the numbers of its packs above that one.
const PAGES: [(u32, u32, u32, &[u32]); 9] = [
    (2, 0, 128, &[2, 4, 5]),
    (2, 0, 2, &[2, 4]),
    (2, 2, 128, &[4, 5]),
    (2, 3, 1, &[4]),
    (2, 5, 128, &[]),
    (2, u32::MAX, 128, &[]),
    (2, 0, 0, &[]),
    (1, 2, 128, &[3]),
    (0, 0, 1, &[1]),
];

// Whether each page is told in the order of its packs, whatever their piles.
fn are_pages_told(hall: &Hall, alloc: Global) -> Result<bool, NoMemory> {
    for (batch, after, most, numbers) in PAGES {
        let Some(told) = hall.packs_after(alloc, batch, after, most)? else {
            return Ok(false);
        };
        if told.as_slice() != numbers {
            return Ok(false);
        }
    }
    Ok(true)
}

const ALL: &[bool] = &[true, true, true];

const LATER: &[bool] = &[false, true, true];

const SECOND: &[bool] = &[false, true, false];

// A product, the days of a span, the chosen batches, and the first of them that is concerned.
const CONCERNED: [(u32, i32, Option<i32>, &[bool], Option<u32>); 9] = [
    (1, 0, None, ALL, Some(0)),
    (1, 0, None, LATER, Some(2)),
    (1, 0, None, SECOND, None),
    (1, 1, None, ALL, Some(2)),
    (1, 2, None, ALL, None),
    (1, 0, Some(0), ALL, None),
    (1, -5, Some(1), ALL, Some(0)),
    (2, 0, Some(1), ALL, Some(1)),
    (3, 0, None, ALL, None),
];

// Whether the first chosen batch is told, whatever the pile.
fn are_batches_told(hall: &Hall) -> bool {
    for (product, from, until, chosen, first) in CONCERNED {
        let span = Span { from, until };
        if hall.first_concerned(product, &span, chosen) != first {
            return false;
        }
    }
    true
}

// How many packs are added in each order, and shifted by drawn calls.
const COUNT: u32 = 500;

// The order in which grosses come: the first, what each is above the one before it, and below what
// a drawn part of it is.
#[derive(Clone, Copy)]
struct Order {
    first: i64,
    step: i64,
    drawn: u32,
}

// Ascending, descending, equal and drawn.
const ORDERS: [Order; 4] = [
    Order {
        first: 230_000,
        step: 100,
        drawn: 1,
    },
    Order {
        first: 280_000,
        step: -100,
        drawn: 1,
    },
    Order {
        first: 250_000,
        step: 0,
        drawn: 1,
    },
    Order {
        first: 230_000,
        step: 0,
        drawn: 40_000,
    },
];

fn add_all(hall: &mut Hall, batch: u32, order: &Order) -> Result<(), NoMemory> {
    let mut draws = Pcg32::new(1, 1);
    let mut next = order.first;
    for _place in 0..COUNT {
        let drawn = draws.next_word().checked_rem(order.drawn).unwrap_or(0);
        hall.add(batch, next.saturating_add(i64::from(drawn)), Pile::Passed)?;
        next = next.saturating_add(order.step);
    }
    Ok(())
}

// Shifts each pack of so many, from the first on.
fn shift_each(hall: &mut Hall, step: u32, to: Pile)
    requires { 0 < step }
{
    for place in 0..COUNT {
        if place % step == 0 {
            hall.shift(place, to);
        }
    }
}

// Packs go out and come back in any order. Tells the first gross of an order that is wrong.
fn wrong_order(hall: &mut Hall, alloc: Global) -> Result<Option<i64>, NoMemory> {
    for order in &ORDERS {
        hall.empty(alloc, 10_000);
        let batch = hall.add_batch(1, LIMITS)?;
        add_all(hall, batch, order)?;
        let added = hall.agrees();
        shift_each(hall, 1, Pile::Rejected);
        let all_out = hall.agrees();
        hall.correct(1, ALL_DAYS, 12_500);
        shift_each(hall, 1, Pile::Sampled);
        let with_another_tare = hall.agrees();
        shift_each(hall, 3, Pile::Voided);
        hall.correct(1, ALL_DAYS, 9_000);
        shift_each(hall, 6, Pile::Passed);
        if !added || !all_out || !with_another_tare || !hall.agrees() {
            return Ok(Some(order.first));
        }
    }
    Ok(None)
}

fn drawn_pile(draws: &mut Pcg32) -> Pile {
    PILES[draws.next_word() as usize % 4]
}

const DAYS: [i32; 8] = [0, 1, 2, 3, 4, 5, 6, 7];

// A span of days up to today, after it, or round it.
fn drawn_span(today: i32, draws: &mut Pcg32) -> Span {
    let from = today.saturating_sub(DAYS[draws.next_word() as usize % 8]);
    let days = DAYS[draws.next_word() as usize % 6];
    let until = from.saturating_add(days);
    Span {
        from,
        until: if days == 0 { None } else { Some(until) },
    }
}

// Adds a pack, shifts one, or corrects a tare, by masses that often meet the limits.
fn take_drawn(hall: &mut Hall, draws: &mut Pcg32) -> Result<(), NoMemory> {
    let word = draws.next_word();
    match draws.next_word() % 16 {
        0 => {
            let span = drawn_span(hall.day, draws);
            let tare = 9_000 + 500 * i64::from(draws.next_word() % 8);
            hall.correct(word % 2, span, tare);
            Ok(())
        }
        1..=7 => {
            hall.shift(word % COUNT, drawn_pile(draws));
            Ok(())
        }
        _ => hall.add(
            word % 3,
            236_000 + 500 * i64::from(draws.next_word() % 50),
            drawn_pile(draws),
        ),
    }
}

// Drawn calls agree with a plain list, and at their end each page does. Tells the first call that
// doesn't, or the number behind which a page doesn't.
fn wrong_call(hall: &mut Hall, alloc: Global, seed: u64) -> Result<Option<u32>, NoMemory> {
    let mut draws = Pcg32::new(seed, 54);
    let other = Limits {
        t1: 240_000,
        ..LIMITS
    };
    hall.empty(alloc, 10_000);
    hall.add_batch(0, LIMITS)?;
    hall.add_batch(1, LIMITS)?;
    hall.add_batch(1, other)?;
    for call in 0..1_200u32 {
        take_drawn(hall, &mut draws)?;
        if !hall.agrees() {
            return Ok(Some(call));
        }
    }
    wrong_page(hall, alloc)
}

// The number behind which a page of one of three batches isn't that of the plain list.
fn wrong_page(hall: &Hall, alloc: Global) -> Result<Option<u32>, NoMemory> {
    for batch in 0..3 {
        let wrong = hall.wrong_page(alloc, batch, 16)?;
        if wrong.is_some() {
            return Ok(wrong);
        }
    }
    Ok(None)
}

// As many calls as were reserved are not refused. Whether this and the totals are right.
fn are_reserved(hall: &mut Hall, alloc: Global, count: u32) -> Result<bool, NoMemory> {
    hall.empty(alloc, 10_000);
    hall.reserve(count)?;
    for place in 0..count {
        let is_taken = if place % 4 == 0 {
            hall.add_batch(place % 3, LIMITS).is_ok()
        } else {
            hall.add(place % 4, i64::from(place), Pile::Passed).is_ok()
        };
        if !is_taken {
            return Ok(false);
        }
    }
    Ok(hall.agrees())
}

// What is told of all these.
#[derive(Clone, Copy, Debug, PartialEq)]
struct Found {
    net: Option<u32>,
    told: [bool; 4],
    order: Option<i64>,
    calls: [Option<u32>; 4],
    reserved: [bool; 5],
}

const RIGHT: Found = Found {
    net: None,
    told: [true; 4],
    order: None,
    calls: [None; 4],
    reserved: [true; 5],
};

fn take_cases(hall: &mut Hall, alloc: Global) -> Result<Found, NoMemory> {
    let net = wrong_net(hall, alloc)?;
    take_two_days(hall, alloc)?;
    Ok(Found {
        net,
        told: [
            are_packs_told(hall),
            are_populations_told(hall, alloc)?,
            are_pages_told(hall, alloc)?,
            are_batches_told(hall),
        ],
        order: wrong_order(hall, alloc)?,
        calls: [
            wrong_call(hall, alloc, 0)?,
            wrong_call(hall, alloc, 1)?,
            wrong_call(hall, alloc, 2)?,
            wrong_call(hall, alloc, 3)?,
        ],
        reserved: [
            are_reserved(hall, alloc, 1)?,
            are_reserved(hall, alloc, 2)?,
            are_reserved(hall, alloc, 3)?,
            are_reserved(hall, alloc, 64)?,
            are_reserved(hall, alloc, 1_000)?,
        ],
    })
}

// No other function owns a hall.
fn take_all(alloc: Global) -> Result<Found, NoMemory> {
    let mut hall = Hall::new(alloc, 1);
    take_cases(&mut hall, alloc)
}

#[test]
fn sums_are_those_of_a_plain_list(rt: HostRuntime) -> Result<(), Fail> {
    assert_eq!(rt; take_all(rt.alloc())?, RIGHT);
    Ok(())
}
