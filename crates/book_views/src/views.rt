ghost use Rattle.std.specs.Prelude.{◌≡◌, ◌≤ℤ◌, pos, List, true, Some, is_none, is_some, option_map, IfOk, IfSome};
ghost use Rattle.hall_limits.specs.declared.TheConstants.{MAX_GROSS, MAX_TARE};
ghost use Rattle.book_words.specs.declared.act.Entry.{Entry};
ghost use Rattle.book_verdicts.specs.Known.{known_pack};
ghost use Rattle.annex_tables.specs.Errors.{IsNominal, limits_of};
ghost use Rattle.book_words.specs.Acts as acts;
ghost use Rattle.book_words.specs.Readings.{reading_of};
ghost use Rattle.book_words.specs.Samples.{sample_of};
ghost use Rattle.book_words.specs.Verdicts.{second_packs};
ghost use Rattle.book_words.specs.Views as told;
ghost use Rattle.book_words.specs.Answers.{IsLegal};
ghost use Rattle.book_verdicts.specs.Told.{totals_told};
ghost use Rattle.book_verdicts.specs.Prepared.{IsSampleOf};
ghost use Rattle.book_views.specs.Terms.{HasTerms, AreTermsOf};

use crate::tallies::add_up;
use annex_tables::{Limits, limits};
use batch_sums::Totals;
use book_verdicts::{KnownPack, NoMemory, Sample, State, count_first, count_second, verdict_of};
use book_words::{
    BatchState, LaneView, Name, PackView, SampleView, Sheet, SummaryView, TestView, Unit, Verdict,
};
use pack_judge::{Class, class};
use sample_draw::Picks;
use std::alloc::Global;

// The packs of the second sample; none where it wasn't drawn.
fn second_slice(sample: &Sample) -> &[u64]
    ensures { result.now ≡ second_packs sample.now }
{
    match sample.second() {
        Some(picks) => picks.as_slice(),
        None => &[],
    }
}

/// The test of a batch of which a sample was drawn: how many packs of each sample were drawn,
/// measured and found defective.
pub fn test_view(state: &State, batch: &Name, sample: &Sample) -> TestView
    requires sample { IsSampleOf state.now.entries batch.now sample.now }
    ensures { result ≡ told.test_view state.now.entries batch.now sample.now }
{
    let first = sample.first().as_slice();
    let second = second_slice(sample);
    TestView {
        mode: sample.mode(),
        first: first.len() as u32,
        measured1: state.measured_count(first),
        d1: count_first(state, batch, sample),
        second: second.len() as u32,
        measured2: state.measured_count(second),
        d2: count_second(state, batch, sample),
    }
}

// The test of a batch, where a sample was drawn.
fn find_test(state: &State, batch: &Name) -> Option<TestView>
    ensures { result ≡ option_map (told.test_view state.now.entries batch.now)
        (sample_of state.now.entries batch.now) }
{
    let sample = state.sample(batch)?;
    Some(test_view(state, batch, sample))
}

// The verdict of a batch that is there, once it is closed.
fn find_verdict(state: &State, batch: &Name, now: BatchState) -> Option<Verdict>
    requires known { is_some (acts.product_of state.now.entries batch.now) ≡ true }
    ensures { result ≡ told.verdict_if_closed state.now.entries batch.now now }
{
    match now {
        BatchState::Closed => Some(verdict_of(state, batch)),
        _ => None,
    }
}

// The totals of a batch that is there.
fn totals_of(state: &State, batch: &Name) -> Totals
    requires known { is_some (acts.product_of state.now.entries batch.now) ≡ true }
    ensures { result ≡ totals_told state.now.entries batch.now }
{
    let Some(totals) = state.totals(batch) else {
        unreachable!()
    };
    totals
}

// The tolerable negative error of a nominal quantity that is one.
fn error_of(nominal: i64) -> i64
    requires nominal { IsNominal nominal }
    ensures { result ≡ (limits_of nominal).tne }
{
    let Ok(limits) = limits(nominal) else {
        unreachable!()
    };
    limits.tne
}

// What a sheet says of a batch that has this product, nominal quantity, unit, density and state.
fn fill_sheet(
    state: &State,
    batch: &Name,
    product: Name,
    nominal: i64,
    unit: Unit,
    density: u32,
    now: BatchState,
) -> Sheet
    requires legal { IsLegal state.now.entries }
    requires terms { HasTerms state.now.entries batch.now product nominal unit density now }
    ensures { result ≡ told.sheet_record state.now.entries batch.now product nominal unit density
        now }
{
    let totals = totals_of(state, batch);
    Sheet {
        batch: *batch,
        product,
        nominal,
        unit,
        tne: error_of(nominal),
        density,
        state: now,
        readings: add_up(
            &totals.passed,
            &totals.rejected,
            &totals.sampled,
            &totals.voided,
        ),
        passed: totals.passed,
        rejected: totals.rejected,
        sampled: totals.sampled,
        voided: totals.voided,
        population: totals.population,
        net: totals.net,
        nonstandard: totals.nonstandard,
        inadequate: totals.inadequate,
        held: totals.inadequate > 0,
        test: find_test(state, batch),
        verdict: find_verdict(state, batch, now),
    }
}

/// The sheet of a batch, where it is one.
pub fn view_sheet(state: &State, batch: &Name) -> Option<Sheet>
    ensures { result ≡ told.sheet_of state.now.entries batch.now }
{
    let product = state.product(batch)?;
    let nominal = state.nominal(&product)?;
    let unit = state.unit(&product)?;
    let density = state.density(batch)?;
    let now = state.state(batch)?;
    Some(fill_sheet(state, batch, product, nominal, unit, density, now))
}

/// What is told alike of each pack of a batch: the batch, its product, and the limits of its nets.
#[derive(Clone, Copy)]
pub struct Terms {
    pub batch: Name,
    pub product: Name,
    pub limits: Limits,
}

/// The terms of a batch; `None` exactly where there is no such batch.
pub fn terms_of(state: &State, batch: &Name) -> Option<Terms>
    ensures batch { IfSome result (λ terms. terms.batch ≡ batch.now) }
    ensures terms { IfSome result (AreTermsOf state.now.entries) }
    ensures there { is_none result ≡ is_none (acts.product_of state.now.entries batch.now) }
{
    let product = state.product(batch)?;
    let limits = state.limits(batch)?;
    Some(Terms {
        batch: *batch,
        product,
        limits,
    })
}

// The view of a pack of which this is known, by the terms of its batch.
fn view_known(number: u32, known: &KnownPack, terms: &Terms) -> PackView
    requires gross { (pos 0 ≤ℤ known.now.gross) × (known.now.gross ≤ℤ MAX_GROSS) }
    requires tare { (pos 0 ≤ℤ known.now.tare) × (known.now.tare ≤ℤ MAX_TARE) }
    ensures { (entries : List Entry) → known_pack entries number ≡ Some known.now
        → known.now.batch ≡ terms.now.batch → AreTermsOf entries terms.now
        → Some result ≡ told.pack_view entries number }
{
    let net = known.gross - known.tare;
    PackView {
        pack: number,
        batch: known.batch,
        product: terms.product,
        lane: known.lane,
        day: known.day,
        gross: known.gross,
        net,
        class: class(net, &terms.limits),
        signal: known.signal,
        pile: known.pile,
    }
}

/// The view of the pack with a number; `None` exactly where there is no such pack.
pub fn view_pack(state: &State, number: u32) -> Option<PackView>
    ensures view { result ≡ told.pack_view state.now.entries number }
    ensures there { is_none result ≡ is_none (reading_of state.now.entries number) }
{
    let known = state.pack(number)?;
    let terms = terms_of(state, &known.batch)?;
    Some(view_known(number, &known, &terms))
}

/// The same, where the terms of a batch are known that may be that of the pack: names are looked for
/// only where they aren't.
pub fn view_by_terms(state: &State, terms: &Terms, number: u32) -> Option<PackView>
    requires { AreTermsOf state.now.entries terms.now }
    ensures { result ≡ told.pack_view state.now.entries number }
{
    let known = state.pack(number)?;
    if known.batch.is(&terms.batch) {
        Some(view_known(number, &known, terms))
    } else {
        view_pack(state, number)
    }
}

/// The view of a lane: its batch, and its unsettled reading.
pub fn view_lane(state: &State, lane: u8) -> LaneView
    ensures { result ≡ told.lane_view state.now.entries lane }
{
    LaneView {
        lane,
        batch: state.lane(lane),
        unsettled: state.unsettled(lane),
    }
}

// The packs of the samples of a batch of which one was drawn.
fn copy_sample(alloc: Global, batch: &Name, sample: &Sample) -> Result<SampleView, NoMemory>
    ensures { IfOk result (λ view. view ≡ record {
      batch = batch.now;
      first = sample.now.first;
      second = second_packs sample.now;
    }) }
{
    let first = Vec::from_slice(alloc, sample.first().as_slice())?;
    let second = Vec::from_slice(alloc, second_slice(sample))?;
    Ok(SampleView {
        batch: *batch,
        first: Picks::from(first),
        second: Picks::from(second),
    })
}

/// The packs that were drawn from a batch, where some were. It takes memory for them.
pub fn view_sample(
    alloc: Global,
    state: &State,
    batch: &Name,
) -> Result<Option<SampleView>, NoMemory>
    ensures { IfOk result (λ view. view ≡ told.sample_view state.now.entries batch.now) }
{
    match state.sample(batch) {
        Some(sample) => {
            let view = copy_sample(alloc, batch, sample)?;
            Ok(Some(view))
        }
        None => Ok(None),
    }
}

/// The balance of the whole hall.
pub fn summarize(state: &State) -> SummaryView
    ensures { result ≡ told.summary state.now.entries }
{
    let piles = state.piles();
    let states = state.states();
    SummaryView {
        rows: state.len(),
        readings: add_up(
            &piles.passed,
            &piles.rejected,
            &piles.sampled,
            &piles.voided,
        ),
        passed: piles.passed,
        rejected: piles.rejected,
        sampled: piles.sampled,
        voided: piles.voided,
        running: states.running,
        ended: states.ended,
        drawn: states.drawn,
        closed: states.closed,
    }
}
