//! The checks of Annex II, the packers' part and the verdict.

use crate::measures::{contents_of, defective_count};
use crate::packs::{Bounds, bounds_of, count_below, nets_of, population, sum_of};
use crate::samples::{Sample, sample_of};
use crate::taken::NoMemory;
use annex_tables::Plan;
use book_words::{Entry, Fails, Name, Verdict};
use std::alloc::Global;

/// The numbers of defective packs in the first and the second sample, so far.
pub fn defectives(entries: &[Entry], bounds: &Bounds, sample: &Sample) -> (u32, u32) {
    (
        defective_count(entries, bounds, sample.mode, &sample.first),
        defective_count(entries, bounds, sample.mode, &sample.second),
    )
}

/// Whether the first sample neither accepts nor rejects.
pub fn is_open(plan: &Plan, d1: u32) -> bool {
    plan.c1 < d1 && d1 < plan.r1
}

// Whether the contents check accepts.
fn contents_accepted(plan: &Plan, d1: u32, d2: u32) -> bool {
    if is_open(plan, d1) {
        d1.saturating_add(d2) <= plan.c2
    } else {
        d1 <= plan.c1
    }
}

// The contents in mg of the measured packs among the first so many of a sample.
fn first_contents(
    alloc: Global,
    entries: &[Entry],
    sample: &Sample,
    many: u32,
) -> Result<Vec<i64>, NoMemory> {
    let mut values = Vec::new(alloc);
    for (place, pack) in sample.first.iter().enumerate() {
        if place < many as usize {
            if let Some(contents) = contents_of(entries, sample.mode, *pack) {
                values.push(contents)?;
            }
        }
    }
    Ok(values)
}

// The spread of some values: the squares of what their number times each of them differs from their
// sum, added up.
fn spread(values: &[i64]) -> i128 {
    let number = values.len() as i128;
    let total = i128::from(sum_of(values));
    let mut spread: i128 = 0;
    for value in values {
        let off = number.wrapping_mul(i128::from(*value)).wrapping_sub(total);
        spread = spread.wrapping_add(off.wrapping_mul(off));
    }
    spread
}

// What some masses in mg together fall short of the nominal quantity for each, times a million.
fn shortfall(masses: &[i64], bounds: &Bounds) -> i128 {
    let wanted = (masses.len() as i128)
        .wrapping_mul(i128::from(bounds.density))
        .wrapping_mul(i128::from(bounds.nominal));
    wanted.wrapping_sub(i128::from(sum_of(masses)).wrapping_mul(1_000_000))
}

// Whether the mean of some masses in mg reaches the nominal quantity, or falls short by at most so
// many thousandths of the standard deviation.
fn mean_accepted(masses: &[i64], bounds: &Bounds, k1000: u32) -> bool {
    let number = masses.len() as i128;
    let short = shortfall(masses, bounds);
    if short <= 0 {
        return true;
    }
    if number < 2 || k1000 == 0 {
        return false;
    }
    let part = i128::from(k1000);
    let left = number
        .wrapping_sub(1)
        .wrapping_mul(short.wrapping_mul(short));
    let right = part.wrapping_mul(part).wrapping_mul(spread(masses));
    left <= right.wrapping_mul(1_000_000)
}

// The parts that fail of a batch with packs of these nets and a sample.
fn fails_of(
    alloc: Global,
    entries: &[Entry],
    nets: &[i64],
    bounds: &Bounds,
    sample: &Sample,
) -> Result<Fails, NoMemory> {
    let (d1, d2) = defectives(entries, bounds, sample);
    let contents = first_contents(alloc, entries, sample, sample.plan.mean_n)?;
    let below = count_below(bounds, bounds.t1, nets);
    Ok(Fails {
        contents: !contents_accepted(&sample.plan, d1, d2),
        mean: !mean_accepted(&contents, bounds, sample.plan.k1000),
        average: shortfall(nets, bounds) > 0,
        allowance: u64::from(below) * 40 > nets.len() as u64,
        inadequate: count_below(bounds, bounds.t2, nets) > 0,
    })
}

/// The verdict of a closed batch.
pub fn verdict_of(alloc: Global, entries: &[Entry], batch: Name) -> Result<Verdict, NoMemory> {
    let packs = population(alloc, entries, batch)?;
    let Some(bounds) = bounds_of(entries, batch) else {
        return Ok(Verdict::Empty);
    };
    let Some(sample) = sample_of(alloc, entries, batch)? else {
        return Ok(Verdict::Empty);
    };
    let nets = nets_of(alloc, entries, &packs)?;
    let fails = fails_of(alloc, entries, &nets, &bounds, &sample)?;
    if fails.contents || fails.mean || fails.average || fails.allowance || fails.inadequate {
        Ok(Verdict::Withheld(fails))
    } else {
        Ok(Verdict::Released)
    }
}
