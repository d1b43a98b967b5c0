//! The totals of a batch as filters and sums over a list, read a second time from the rules.

use annex_tables::Limits;
use batch_sums::Totals;
use pack_judge::{Pile, Tally};
use std::alloc::{AllocError, Global};

/// A pack of a plain list. Its number is its place.
#[derive(Clone, Copy)]
pub struct PlainPack {
    pub product: u32,
    pub batch: u32,
    pub day: i32,
    pub gross: i64,
    pub tare: i64,
    pub pile: Pile,
}

fn tally(packs: &[PlainPack], batch: u32, pile: Pile) -> Tally {
    let mut tally = Tally { count: 0, gross: 0 };
    for pack in packs {
        if pack.batch == batch && pack.pile == pile {
            tally.count = tally.count.saturating_add(1);
            tally.gross = tally.gross.saturating_add(pack.gross);
        }
    }
    tally
}

// The sum of the nets in the population of a batch, and how many of them are below a limit.
fn nets(packs: &[PlainPack], batch: u32, limit: i64) -> (i64, u32) {
    let mut sum = 0i64;
    let mut below = 0u32;
    for pack in packs {
        let net = pack.gross.saturating_sub(pack.tare);
        let is_in = pack.pile == Pile::Passed || pack.pile == Pile::Sampled;
        if pack.batch == batch && is_in {
            sum = sum.saturating_add(net);
            below = below.saturating_add(u32::from(net < limit));
        }
    }
    (sum, below)
}

/// The totals of a batch of these limits over a list of packs.
pub fn plain_totals(packs: &[PlainPack], batch: u32, limits: &Limits) -> Totals {
    let passed = tally(packs, batch, Pile::Passed);
    let sampled = tally(packs, batch, Pile::Sampled);
    let (net, nonstandard) = nets(packs, batch, limits.t1);
    let (_, inadequate) = nets(packs, batch, limits.t2);
    Totals {
        passed,
        rejected: tally(packs, batch, Pile::Rejected),
        sampled,
        voided: tally(packs, batch, Pile::Voided),
        population: passed.count.saturating_add(sampled.count),
        net,
        nonstandard,
        inadequate,
    }
}

/// The numbers above one of the packs of a batch in a list, at most so many.
pub fn plain_page(
    alloc: Global,
    packs: &[PlainPack],
    batch: u32,
    after: u32,
    most: u32,
) -> Result<Vec<u32>, AllocError> {
    let mut page = Vec::new(alloc);
    let mut number = 0u32;
    for pack in packs {
        if pack.batch == batch && number > after && page.len() < most as usize {
            page.push(number)?;
        }
        number = number.saturating_add(1);
    }
    Ok(page)
}
