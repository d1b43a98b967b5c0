use pack_judge::Span;
use std::alloc::Global;
use std::test::Fail;
use tare_register::{NoMemory, Tares};

// Tares of three products, in an order that isn't that of their days.
const PUT: [(u32, i32, i64); 10] = [
    (7, 20, 200),
    (7, 0, 100),
    (9, 5, 900),
    (7, 40, 400),
    (7, 20, 250),
    (7, 30, 300),
    (7, 20, 225),
    (7, i32::MIN, 1),
    (7, i32::MAX, 2),
    (u32::MAX, 20, 3),
];

// What a product then weighs on a day.
const DECIDED: [(u32, i32, Option<i64>); 15] = [
    (7, i32::MIN, Some(1)),
    (7, -1, Some(1)),
    (7, 0, Some(100)),
    (7, 19, Some(100)),
    (7, 20, Some(225)),
    (7, 29, Some(225)),
    (7, 30, Some(300)),
    (7, 40, Some(400)),
    (7, i32::MAX, Some(2)),
    (8, 20, None),
    (9, 4, None),
    (9, i32::MAX, Some(900)),
    (0, i32::MAX, None),
    (u32::MAX, 19, None),
    (u32::MAX, 20, Some(3)),
];

// The next day for which a product then has an entry.
const NEXT_DAYS: [(u32, i32, Option<i32>); 5] = [
    (7, -1, Some(0)),
    (7, 20, Some(30)),
    (7, 21, Some(30)),
    (7, 40, Some(i32::MAX)),
    (8, 20, None),
];

// Puts all tares, for one of which a place was reserved.
fn put_all(tares: &mut Tares) -> Result<(), NoMemory> {
    tares.reserve(1)?;
    for (product, day, tare) in PUT {
        tares.put(product, day, tare)?;
    }
    Ok(())
}

// The first product and day that is told another tare.
fn wrong_tare(tares: &Tares) -> Option<(u32, i32)> {
    for (product, day, tare) in DECIDED {
        if tares.at(product, day) != tare {
            return Some((product, day));
        }
    }
    None
}

// The first product and day that is told another span.
fn wrong_span(tares: &Tares) -> Option<(u32, i32)> {
    for (product, from, until) in NEXT_DAYS {
        if tares.span(product, from) != (Span { from, until }) {
            return Some((product, from));
        }
    }
    None
}

// The first product and day that is told another tare or span.
fn wrong_day(alloc: Global) -> Result<Option<(u32, i32)>, NoMemory> {
    let mut tares = Tares::new(alloc);
    put_all(&mut tares)?;
    Ok(wrong_tare(&tares).or(wrong_span(&tares)))
}

#[test]
fn tares_are_put_in_any_order_of_days(rt: HostRuntime) -> Result<(), Fail> {
    assert!(rt; wrong_day(rt.alloc())?.is_none());
    Ok(())
}
