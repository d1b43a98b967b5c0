ghost use Rattle.std.specs.Prelude.{◌≡◌, ◌≤◌, ◌≤ℤ◌, ◌*ℤ◌, ℤ, List, pos, int_le, true, is_some};
ghost use Rattle.annex_tables.specs.declared.TheConstants.{MIN_NOMINAL, MAX_NOMINAL};
ghost use Rattle.hall_limits.specs.declared.TheConstants.{MIN_DENSITY, MAX_DENSITY};
ghost use Rattle.annex_tables.specs.Errors.{IsNominal};
ghost use Rattle.reference_test.specs.Means as means;
ghost use Rattle.reference_test.specs.Means.{sums_of};
ghost use Rattle.book_words.specs.Acts.{product_of};
ghost use Rattle.book_words.specs.Population.{population};
ghost use Rattle.book_words.specs.Samples as samples;
ghost use Rattle.book_words.specs.Verdicts as verdicts;
ghost use Rattle.reference_test.specs.declared.means.TheConstants.{UNIT_DENSITY};
ghost use Rattle.book_state.specs.Told.{totals_told};
ghost use Rattle.book_state.specs.Prepared.{IsSampleOf};

use crate::contents::{count_defective, sum_contents};
use crate::limits::{density_of_batch, nominal_of_batch};
use annex_tables::Plan;
use batch_sums::Totals;
use book_state::{Sample, State};
use book_words::{Fails, Name, Verdict};
use reference_test::{Contents, Sums, UNIT_DENSITY, contents_check, mean_check_at};

/// Whether the first sample leaves it open: more defective packs than are accepted, fewer than are
/// rejected.
pub fn is_open(plan: &Plan, d1: u32) -> bool
    ensures { result ≡ verdicts.is_open plan.now d1 }
{
    plan.c1 < d1 && d1 < plan.r1
}

/// How many packs of the first sample of a batch are defective.
pub fn count_first(state: &State, batch: &Name, sample: &Sample) -> u32
    requires sample { IsSampleOf state.now.entries batch.now sample.now }
    ensures { result ≡ verdicts.first_defective state.now.entries batch.now sample.now }
{
    count_defective(state, batch, sample.mode(), sample.first().as_slice())
}

/// How many packs of the second sample of a batch are defective; 0 where none was drawn.
pub fn count_second(state: &State, batch: &Name, sample: &Sample) -> u32
    requires sample { IsSampleOf state.now.entries batch.now sample.now }
    ensures { result ≡ verdicts.second_defective state.now.entries batch.now sample.now }
{
    match sample.second() {
        Some(picks) => count_defective(state, batch, sample.mode(), picks.as_slice()),
        None => 0,
    }
}

// The contents check of Annex II.
fn contents_accept(state: &State, batch: &Name, sample: &Sample) -> bool
    requires sample { IsSampleOf state.now.entries batch.now sample.now }
    ensures { result ≡ verdicts.contents_check_accepts state.now.entries batch.now sample.now }
{
    let d1 = count_first(state, batch, sample);
    let d2 = count_second(state, batch, sample);
    contents_check(sample.plan(), d1, Some(d2)) == Contents::Accept
}

// Whether the mean of some contents at a density is accepted.
fn is_mean_right(sums: &Sums, nominal: i64, density: u32, k1000: u32) -> bool
    requires nominal { IsNominal nominal }
    requires least { MIN_DENSITY ≤ density }
    requires greatest { density ≤ MAX_DENSITY }
    requires part { k1000 ≤ 1000 }
    ensures { (values : List ℤ) → sums.now ≡ sums_of values
        → result ≡ means.mean_accepts values nominal density k1000 }
{
    sums.number() == 0 || mean_check_at(sums, nominal, density, k1000)
}

// The mean check of Annex II.
fn mean_accepts(state: &State, batch: &Name, sample: &Sample) -> bool
    requires sample { IsSampleOf state.now.entries batch.now sample.now }
    ensures { result ≡ verdicts.mean_check_accepts state.now.entries batch.now sample.now }
{
    let plan = sample.plan();
    let packs = &sample.first().as_slice()[..plan.mean_n as usize];
    let sums = sum_contents(state, sample.mode(), packs);
    let nominal = nominal_of_batch(state, batch);
    let density = density_of_batch(state, batch);
    is_mean_right(&sums, nominal, density, plan.k1000)
}

// Whether so many packs that weigh together so many mg reach a nominal quantity at a density.
fn is_reached(population: u32, density: u32, nominal: i64, net: i64) -> bool
    requires least { MIN_NOMINAL ≤ℤ nominal }
    requires greatest { nominal ≤ℤ MAX_NOMINAL }
    ensures { result ≡ int_le (pos population *ℤ pos density *ℤ nominal)
        (pos UNIT_DENSITY *ℤ net) }
{
    let wanted = i128::from(population) * i128::from(density) * i128::from(nominal);
    wanted <= i128::from(UNIT_DENSITY) * i128::from(net)
}

// Whether the packs of a batch hold together at least what the nominal quantity asks for.
fn average_accepts(state: &State, batch: &Name, totals: &Totals) -> bool
    requires known { is_some (product_of state.now.entries batch.now) ≡ true }
    requires totals { totals.now ≡ totals_told state.now.entries batch.now }
    ensures { result ≡ verdicts.average_accepts state.now.entries batch.now
        (population state.now.entries batch.now) }
{
    let nominal = nominal_of_batch(state, batch);
    let density = density_of_batch(state, batch);
    is_reached(totals.population, density, nominal, totals.net)
}

// The parts that fail of a batch with a pack in its population.
fn fails_of(state: &State, batch: &Name, totals: &Totals) -> Fails
    requires known { is_some (product_of state.now.entries batch.now) ≡ true }
    requires totals { totals.now ≡ totals_told state.now.entries batch.now }
    ensures { result ≡ verdicts.fails_of state.now.entries batch.now
        (population state.now.entries batch.now) (samples.sample_of state.now.entries batch.now) }
{
    let (contents, mean) = match state.sample(batch) {
        Some(sample) => (
            contents_accept(state, batch, sample),
            mean_accepts(state, batch, sample),
        ),
        None => (false, false),
    };
    Fails {
        contents: !contents,
        mean: !mean,
        average: !average_accepts(state, batch, totals),
        allowance: u64::from(totals.nonstandard) * 40 > u64::from(totals.population),
        inadequate: totals.inadequate != 0,
    }
}

// Whether a part fails.
fn any_fails(fails: &Fails) -> bool
    ensures { result ≡ verdicts.any_fails fails.now }
{
    fails.contents || fails.mean || fails.average || fails.allowance || fails.inadequate
}

/// The verdict of a batch that is there: empty without a pack in its population, released where
/// each part of the test holds, else withheld with the parts that fail (Annex II, and this
/// project's packers' part).
pub fn verdict_of(state: &State, batch: &Name) -> Verdict
    requires known { is_some (product_of state.now.entries batch.now) ≡ true }
    ensures { result ≡ verdicts.verdict_of state.now.entries batch.now }
{
    let Some(totals) = state.totals(batch) else {
        unreachable!()
    };
    if totals.population == 0 {
        return Verdict::Empty;
    }
    let fails = fails_of(state, batch, &totals);
    if any_fails(&fails) {
        Verdict::Withheld(fails)
    } else {
        Verdict::Released
    }
}
