//! The signal of a weighing.

use crate::packs::{
    Bounds, bounds_of, class_of, count_below, net_of, nets_of, pack_at, population_among,
};
use crate::taken::NoMemory;
use book_words::Entry;
use pack_judge::{Cause, Class, Signal};
use std::alloc::Global;

// The signal of a net in mg, in a batch with these nets before it.
fn judge(nets: &[i64], bounds: &Bounds, net: i64) -> Signal {
    let class = class_of(bounds, net);
    let below = count_below(bounds, bounds.t1, nets);
    if count_below(bounds, bounds.t2, nets) > 0 {
        Signal::Reject(Cause::Held)
    } else if nets.len() == 10_000 {
        Signal::Reject(Cause::Full)
    } else if class == Class::Inadequate {
        Signal::Reject(Cause::Inadequate)
    } else if class == Class::NonStandard && u64::from(below) * 40 > nets.len() as u64 {
        Signal::Reject(Cause::Allowance)
    } else {
        Signal::Pass
    }
}

/// The signal of the act that stands last, where it is a weighing. What it says of the gate counts
/// already, and its own pack doesn't.
pub fn signal_of_last(alloc: Global, entries: &[Entry]) -> Result<Option<Signal>, NoMemory> {
    let many = entries.len().saturating_sub(1);
    let Some(pack) = pack_at(entries, many) else {
        return Ok(None);
    };
    let Some(batch) = pack.batch else {
        return Ok(None);
    };
    let Some(bounds) = bounds_of(entries, batch) else {
        return Ok(None);
    };
    let packs = population_among(alloc, entries, many, batch)?;
    let nets = nets_of(alloc, entries, &packs)?;
    let net = net_of(entries, &pack, pack.gross);
    Ok(Some(judge(&nets, &bounds, net)))
}
