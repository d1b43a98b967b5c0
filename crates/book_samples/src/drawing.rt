ghost use Rattle.std.specs.Prelude.{◌≡◌, ◌+◌, ◌<◌, ◌≤◌, ◌^◌, None, IfOk, length};
ghost use Rattle.std.specs.List.Sorted.{IsStrictlyIncreasing};
ghost use Rattle.annex_tables.specs.Plans.{plan_of};
ghost use Rattle.book_words.specs.Samples as samples;
ghost use Rattle.book_samples.specs.DrawnBy.{IsDrawnBy};

use crate::types::Sample;
use annex_tables::{Mode, Plan, plan};
use sample_draw::{NoMemory, Picks, draw, draw_more};
use std::alloc::Global;

// The plan of a population of which there is no reference test.
const NO_PLAN: Plan = Plan {
    first: 0,
    c1: 0,
    r1: 0,
    second: 0,
    c2: 0,
    r2: 0,
    mean_n: 0,
    k1000: 0,
};

// The plan of the reference test of `n` packs; where there is none, one of no packs.
fn plan_or_none(n: u32, mode: Mode) -> Plan
    ensures value { result ≡ samples.plan_or_empty (plan_of n mode) }
    ensures drawable { result.first + result.second ≤ n }
{
    match plan(n, mode) {
        Ok(plan) => plan,
        Err(_) => NO_PLAN,
    }
}

/// Draws the first sample of a batch by `word`, from the numbers of the packs of its population in
/// ascending order. It takes the memory of the sample, so that entering it can't fail.
pub fn draw_first(
    alloc: Global,
    mode: Mode,
    word: u64,
    population: &[u64],
) -> Result<Sample, NoMemory>
    requires ascending { IsStrictlyIncreasing population.now }
    requires few { length population.now < 2 ^ 32 }
    ensures { IfOk result (λ sample. sample ≡ samples.sample_by
        (record { mode = mode; word = word; packs = population.now }) None) }
{
    let plan = plan_or_none(population.len() as u32, mode);
    let first = draw(alloc, word, population, plan.first)?;
    let sample = Sample::new(alloc, mode, plan, first)?;
    Ok(sample)
}

/// Draws the second sample of a batch by `word`, from the packs of its population that its first
/// sample left. It takes the memory of the packs, so that entering them can't fail.
pub fn draw_second(
    alloc: Global,
    sample: &Sample,
    word: u64,
    population: &[u64],
) -> Result<Picks, NoMemory>
    requires ascending { IsStrictlyIncreasing population.now }
    requires drawn { (drawing : samples.Drawing) × IsDrawnBy population.now sample.now drawing }
    ensures { (drawing : samples.Drawing) → IsDrawnBy population.now sample.now drawing
        → IfOk result (λ picks. picks ≡ samples.second_picks drawing word) }
{
    let picks = draw_more(
        alloc,
        word,
        population,
        sample.first(),
        sample.plan().second,
    )?;
    Ok(picks)
}
