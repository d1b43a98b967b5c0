//! The packs that were weighed: what the entries round a weighing say of it.

use crate::entries::{
    last_start, newest_day, number_at, opening_of, product_named, tare_of_product,
};
use crate::tables::error_of;
use crate::taken::NoMemory;
use book_words::{Act, Entry, Name, Prior, Unit};
use pack_judge::{Class, Pile, Signal};
use std::alloc::Global;

/// A pack that was weighed.
#[derive(Clone, Copy)]
pub struct Pack {
    /// The row of its weighing.
    pub number: u32,
    pub lane: u8,
    /// In mg.
    pub gross: i64,
    /// The day on which it was weighed.
    pub day: Option<i32>,
    /// Its batch.
    pub batch: Option<Name>,
    /// The signal that it got.
    pub signal: Option<Signal>,
    /// Where it lies while no sample is looked at.
    pub pile: Pile,
    /// Whether it waits for word of the gate.
    pub unsettled: bool,
}

// What the first weighing or stop of a lane says of the gate.
fn first_prior(entries: &[Entry], wanted: u8) -> Option<Prior> {
    for entry in entries {
        match entry.act {
            Act::Weigh { lane, prior, .. } if lane == wanted => return Some(prior),
            Act::StopLane { lane, prior } if lane == wanted => return Some(prior),
            _ => {}
        }
    }
    None
}

// Whether a pack is taken back.
fn is_taken_back(entries: &[Entry], number: u32) -> bool {
    for entry in entries {
        if let Act::Void { pack } = entry.act {
            if pack == number {
                return true;
            }
        }
    }
    false
}

// The pile of a pack, by its signal and by what its lane says of the gate afterwards.
fn pile_by_gate(signal: Option<Signal>, next: Option<Prior>) -> Pile {
    match signal {
        None => Pile::Passed,
        Some(Signal::Reject(_)) => Pile::Rejected,
        Some(Signal::Pass) => match next {
            Some(Prior::Stayed) => Pile::Rejected,
            Some(Prior::Unknown) => Pile::Voided,
            _ => Pile::Passed,
        },
    }
}

/// The pack at a place, counted from 0, where a weighing stands there.
pub fn pack_at(entries: &[Entry], place: usize) -> Option<Pack> {
    let entry = entries.get(place)?;
    let before = entries.get(..place)?;
    let after = entries.get(place.saturating_add(1)..)?;
    let Act::Weigh { lane, gross, .. } = entry.act else {
        return None;
    };
    let number = number_at(place);
    let next = first_prior(after, lane);
    let pile = if is_taken_back(after, number) {
        Pile::Voided
    } else {
        pile_by_gate(entry.signal, next)
    };
    Some(Pack {
        number,
        lane,
        gross,
        day: newest_day(before),
        batch: last_start(before, lane),
        signal: entry.signal,
        pile,
        unsettled: entry.signal == Some(Signal::Pass) && next.is_none(),
    })
}

/// The pack of a number, where there is one.
pub fn pack_of(entries: &[Entry], number: u32) -> Option<Pack> {
    pack_at(entries, (number as usize).checked_sub(1)?)
}

/// The packs among so many of the first entries that count for a batch: those neither rejected nor
/// voided.
pub fn population_among(
    alloc: Global,
    entries: &[Entry],
    many: usize,
    batch: Name,
) -> Result<Vec<Pack>, NoMemory> {
    let mut packs = Vec::new(alloc);
    for place in 0..many {
        if let Some(pack) = pack_at(entries, place) {
            if pack.batch == Some(batch) && pack.pile == Pile::Passed {
                packs.push(pack)?;
            }
        }
    }
    Ok(packs)
}

/// The packs that count for a batch.
pub fn population(alloc: Global, entries: &[Entry], batch: Name) -> Result<Vec<Pack>, NoMemory> {
    population_among(alloc, entries, entries.len(), batch)
}

/// The tare of a pack in mg: that of its product and day, as the tares now are.
pub fn tare_of_pack(entries: &[Entry], pack: &Pack) -> Option<i64> {
    let opening = opening_of(entries, pack.batch?)?;
    tare_of_product(entries, opening.product, pack.day?)
}

/// A gross of a pack less its tare, in mg.
pub fn net_of(entries: &[Entry], pack: &Pack, gross: i64) -> i64 {
    gross.wrapping_sub(tare_of_pack(entries, pack).unwrap_or(0))
}

/// What the packs of a batch are held against. Quantities are in mg or microlitres, by the unit.
#[derive(Clone, Copy)]
pub struct Bounds {
    pub nominal: i64,
    pub unit: Unit,
    /// One error below it.
    pub t1: i64,
    /// Two errors below it.
    pub t2: i64,
    /// In mg a litre; a million for goods by mass.
    pub density: i64,
}

/// What the packs of a batch are held against.
pub fn bounds_of(entries: &[Entry], batch: Name) -> Option<Bounds> {
    let opening = opening_of(entries, batch)?;
    let product = product_named(entries, opening.product)?;
    let error = error_of(product.nominal);
    let t1 = product.nominal.wrapping_sub(error);
    Some(Bounds {
        nominal: product.nominal,
        unit: product.unit,
        t1,
        t2: t1.wrapping_sub(error),
        density: match product.unit {
            Unit::Mass => 1_000_000,
            Unit::Volume => i64::from(opening.density),
        },
    })
}

/// Whether a mass in mg is below a quantity of a batch.
pub fn is_below(bounds: &Bounds, quantity: i64, mass: i64) -> bool {
    mass.wrapping_mul(1_000_000) < bounds.density.wrapping_mul(quantity)
}

/// The class of a net in mg.
pub fn class_of(bounds: &Bounds, net: i64) -> Class {
    if is_below(bounds, bounds.t2, net) {
        Class::Inadequate
    } else if is_below(bounds, bounds.t1, net) {
        Class::NonStandard
    } else {
        Class::Standard
    }
}

/// The nets of some packs in mg.
pub fn nets_of(alloc: Global, entries: &[Entry], packs: &[Pack]) -> Result<Vec<i64>, NoMemory> {
    let mut nets = Vec::new(alloc);
    for pack in packs {
        nets.push(net_of(entries, pack, pack.gross))?;
    }
    Ok(nets)
}

/// How many of some masses in mg are below a quantity of their batch.
pub fn count_below(bounds: &Bounds, quantity: i64, masses: &[i64]) -> u32 {
    let mut count: u32 = 0;
    for mass in masses {
        if is_below(bounds, quantity, *mass) {
            count = count.saturating_add(1);
        }
    }
    count
}

/// The sum of some masses in mg.
pub fn sum_of(masses: &[i64]) -> i64 {
    let mut sum: i64 = 0;
    for mass in masses {
        sum = sum.wrapping_add(*mass);
    }
    sum
}
