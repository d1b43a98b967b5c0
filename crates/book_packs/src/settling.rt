ghost use Rattle.std.specs.Prelude.{◌≡◌, int_lt, ◌<◌, ◌^◌, ◌==◌, find};
ghost use Rattle.std.specs.List.{All};
ghost use Rattle.std.specs.Option.{option_and_then};
ghost use Rattle.pack_groups.specs.Population.{is_counted};
ghost use Rattle.batch_sums.specs.Totals.{net_of};
ghost use Rattle.book_packs.specs.Settling.{takes_out, pile_left, leaving, settled, signal_pile, less_if, met_without, met_less, if_counts_for, sampled_one, sampled};

use crate::types::AtWeighing;
use annex_tables::Limits;
use batch_sums::{BatchSums, Pack, Totals};
use book_words::Prior;
use pack_judge::{Pile, Signal};

/// The pack of a lane's unsettled reading, where what is said of the gate takes it out of the
/// population.
pub fn leaving(sums: &BatchSums, unsettled: Option<u32>, prior: Prior) -> Option<Pack>
    ensures { result ≡ leaving unsettled prior sums.now.packs }
{
    if !takes_out(prior) {
        return None;
    }
    let pack = sums.pack(unsettled?)?;
    if is_counted(pack.pile) {
        Some(pack)
    } else {
        None
    }
}

/// Moves the pack of a lane's unsettled reading where what is said of the gate takes it out of the
/// population.
pub fn settle(sums: &mut BatchSums, unsettled: Option<u32>, prior: Prior)
    ensures packs { sums.new.packs ≡ settled unsettled prior sums.old.packs }
    ensures batches { sums.new.batches ≡ sums.old.batches }
    ensures spare { sums.new.spare ≡ sums.old.spare }
{
    let Some(pack) = leaving(sums, unsettled, prior) else {
        return;
    };
    sums.shift(pack.number, pile_left(prior));
}

/// The population of a batch without the pack that is taken out, if that is one of the batch.
pub fn met_less(totals: &Totals, limits: &Limits, batch: u32, leaving: Option<Pack>) -> AtWeighing
    ensures { result ≡ met_less totals.now limits.now batch leaving }
{
    match leaving {
        Some(pack) if pack.batch == batch => met_without(totals, limits, &pack),
        _ => AtWeighing {
            limits: *limits,
            population: totals.population,
            nonstandard: totals.nonstandard,
            inadequate: totals.inadequate,
        },
    }
}

// The population of a batch without a pack of it.
fn met_without(totals: &Totals, limits: &Limits, pack: &Pack) -> AtWeighing
    ensures { result ≡ met_without totals.now limits.now pack.now }
{
    AtWeighing {
        limits: *limits,
        population: less_if(totals.population, true),
        nonstandard: less_if(totals.nonstandard, is_below(pack, limits.t1)),
        inadequate: less_if(totals.inadequate, is_below(pack, limits.t2)),
    }
}

// Whether the net of a pack is below a limit.
fn is_below(pack: &Pack, limit: i64) -> bool
    ensures { result ≡ int_lt (net_of pack.now) limit }
{
    i128::from(pack.gross) - i128::from(pack.tare) < i128::from(limit)
}

// A count less one where a test holds.
fn less_if(count: u32, test: bool) -> u32
    ensures { result ≡ less_if count test }
{
    if test { count.saturating_sub(1) } else { count }
}

// Whether what is said of the gate takes the reading before it out of the population.
fn takes_out(prior: Prior) -> bool
    ensures { result ≡ takes_out prior }
{
    prior == Prior::Stayed || prior == Prior::Unknown
}

// The pile of a reading that is taken out.
fn pile_left(prior: Prior) -> Pile
    ensures { result ≡ pile_left prior }
{
    if prior == Prior::Unknown {
        Pile::Voided
    } else {
        Pile::Rejected
    }
}

// Whether a pile counts for the population.
fn is_counted(pile: Pile) -> bool
    ensures { result ≡ is_counted pile }
{
    pile == Pile::Passed || pile == Pile::Sampled
}

/// Moves those of some packs that count for the population of a batch to its sample.
pub fn sample(sums: &mut BatchSums, batch: u32, picks: &[u64])
    requires { All (λ pick. pick < 2 ^ 32) picks.now }
    ensures packs { sums.new.packs ≡ sampled batch picks.now sums.old.packs }
    ensures batches { sums.new.batches ≡ sums.old.batches }
    ensures spare { sums.new.spare ≡ sums.old.spare }
{
    for pick in picks {
        sample_one(sums, batch, *pick as u32);
    }
}

// Moves a pack to the sample of a batch, where it counts for its population.
fn sample_one(sums: &mut BatchSums, batch: u32, pick: u32)
    ensures packs { sums.new.packs ≡ sampled_one batch pick sums.old.packs }
    ensures batches { sums.new.batches ≡ sums.old.batches }
    ensures spare { sums.new.spare ≡ sums.old.spare }
{
    let Some(pack) = pick_of(sums, batch, pick) else {
        return;
    };
    sums.shift(pack.number, Pile::Sampled);
}

// The pack of a number, where it counts for the population of a batch.
fn pick_of(sums: &BatchSums, batch: u32, pick: u32) -> Option<Pack>
    ensures { result ≡ option_and_then (if_counts_for batch)
        (find (λ pack. pack.number == pick) sums.now.packs) }
{
    let pack = sums.pack(pick)?;
    if pack.batch == batch && is_counted(pack.pile) {
        Some(pack)
    } else {
        None
    }
}

/// The pile of a reading by its signal alone.
pub fn signal_pile(signal: Signal) -> Pile
    ensures { result ≡ signal_pile signal }
{
    match signal {
        Signal::Pass => Pile::Passed,
        Signal::Reject(_) => Pile::Rejected,
    }
}
