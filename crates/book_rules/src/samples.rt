ghost use Rattle.std.specs.Prelude.{◌≡◌};
ghost use Rattle.book_words.specs.declared.name.Name as names;
ghost use Rattle.book_words.specs.Measures.{first_unmeasured};
ghost use Rattle.book_words.specs.Verdicts.{first_defective, second_packs};
ghost use Rattle.book_words.specs.Refusals as rules;
ghost use Rattle.book_verdicts.specs.Prepared.{IsSampleOf};
ghost use Rattle.book_rules.specs.Counted.{counted_packs};

use crate::checks::{batch_state, refuse_if};
use annex_tables::Mode;
use book_verdicts::{Sample, State, count_first, is_open};
use book_words::{BatchState, Name, Refusal};
use hall_limits::MAX_TARE;
use pack_judge::Pile;

/// The fewest packs of a batch that may be destroyed in its test (Annex II).
pub const FEWEST_DESTROYED: u32 = 100;

/// The batch of a pack isn't in a state that the act allows.
pub fn pack_state(allowed: &[BatchState], state: &State, pack: u32) -> Option<Refusal>
    ensures { result ≡ rules.pack_state allowed.now state.now.entries pack }
{
    let known = state.pack(pack)?;
    batch_state(allowed, state, &known.batch)
}

/// No reading has that number.
pub fn pack_unknown(state: &State, pack: u32) -> Option<Refusal>
    ensures { result ≡ rules.pack_unknown state.now.entries pack }
{
    refuse_if(state.pack(pack).is_none(), Refusal::PackUnknown)
}

/// The pack doesn't lie in the pile that the act wants.
pub fn pack_pile(wanted: Pile, state: &State, pack: u32) -> Option<Refusal>
    ensures { result ≡ rules.pack_pile wanted state.now.entries pack }
{
    let known = state.pack(pack)?;
    let pile = known.pile;
    refuse_if(pile != wanted, Refusal::PackPile { pile })
}

/// The pack is the unsettled reading of its lane.
pub fn unsettled(state: &State, pack: u32) -> Option<Refusal>
    ensures { result ≡ rules.unsettled state.now.entries pack }
{
    let lane = state.unsettled_lane(pack)?;
    Some(Refusal::Unsettled { lane })
}

/// The batch has no pack in its population.
pub fn batch_empty(state: &State, batch: &Name) -> Option<Refusal>
    ensures { result ≡ rules.batch_empty state.now.entries batch.now }
{
    refuse_if(state.population_count(batch) == 0, Refusal::BatchEmpty)
}

/// Packs are to be destroyed, and there are 1 to 99.
pub fn mode_small(state: &State, batch: &Name, mode: Mode) -> Option<Refusal>
    ensures { result ≡ rules.mode_small state.now.entries batch.now mode }
{
    match mode {
        Mode::Keep => None,
        Mode::Destroy => {
            let n = state.population_count(batch);
            refuse_if(1 <= n && n < FEWEST_DESTROYED, Refusal::ModeSmall { n })
        }
    }
}

/// The batch has ended and has packs, and no sample of it was drawn.
pub fn not_drawn(state: &State, batch: &Name) -> Option<Refusal>
    ensures { result ≡ rules.not_drawn state.now.entries batch.now }
{
    let ended = state.state(batch) == Some(BatchState::Ended);
    refuse_if(
        ended && state.population_count(batch) > 0,
        Refusal::NotDrawn,
    )
}

/// The pack was measured.
pub fn measured_already(state: &State, pack: u32) -> Option<Refusal>
    ensures { result ≡ rules.measured_already state.now.entries pack }
{
    let measured = state.measured(pack)?;
    Some(Refusal::MeasuredAlready {
        value: measured.gross(),
    })
}

// Whether the packs of the pack's batch are kept in its test.
fn is_kept_whole(state: &State, pack: u32) -> bool
    ensures { result ≡ rules.is_pack_kept state.now.entries pack }
{
    let Some(known) = state.pack(pack) else {
        return false;
    };
    match state.sample(&known.batch) {
        Some(sample) => sample.mode() == Mode::Keep,
        None => false,
    }
}

/// The mass of an empty pack isn't 0 to 5 kg, or isn't 0 where packs are kept.
pub fn empty_range(state: &State, pack: u32, empty: i64) -> Option<Refusal>
    ensures { result ≡ rules.empty_range state.now.entries pack empty }
{
    let outside = !(0 <= empty && empty <= MAX_TARE);
    refuse_if(
        outside || (is_kept_whole(state, pack) && empty != 0),
        Refusal::TareRange,
    )
}

// Whether each pack of the first sample was measured.
fn is_measured(state: &State, sample: &Sample) -> bool
    requires sample { (batch : names.Name) × IsSampleOf state.now.entries batch sample.now }
    ensures { result ≡ rules.is_measured state.now.entries sample.now.first }
{
    state.first_unmeasured(sample.first().as_slice()).is_none()
}

// Whether a second sample isn't needed.
fn is_second_not_needed(state: &State, sample: &Sample, d1: u32) -> bool
    requires sample { (batch : names.Name) × IsSampleOf state.now.entries batch sample.now }
    ensures { (batch : names.Name) → d1 ≡ first_defective state.now.entries batch sample.now
        → result ≡ rules.is_second_not_needed state.now.entries batch sample.now }
{
    let plan = sample.plan();
    plan.second == 0
        || sample.second().is_some()
        || (is_measured(state, sample) && !is_open(plan, d1))
}

/// No second sample is needed.
pub fn second_not_needed(state: &State, batch: &Name) -> Option<Refusal>
    ensures { result ≡ rules.second_not_needed state.now.entries batch.now }
{
    let sample = state.sample(batch)?;
    let d1 = count_first(state, batch, sample);
    refuse_if(
        is_second_not_needed(state, sample, d1),
        Refusal::SecondNotNeeded { d1 },
    )
}

/// A pack of the first sample isn't measured.
pub fn first_wanting(state: &State, batch: &Name) -> Option<Refusal>
    ensures { result ≡ rules.first_wanting state.now.entries batch.now }
{
    let sample = state.sample(batch)?;
    let pack = state.first_unmeasured(sample.first().as_slice())?;
    Some(Refusal::Unmeasured { pack })
}

// The first pack of the second sample that isn't measured, where one was drawn.
fn second_unmeasured(state: &State, sample: &Sample) -> Option<u32>
    requires sample { (batch : names.Name) × IsSampleOf state.now.entries batch sample.now }
    ensures { result ≡ first_unmeasured state.now.entries (second_packs sample.now) }
{
    let picks = sample.second()?;
    state.first_unmeasured(picks.as_slice())
}

// The first pack of the second sample that isn't measured, where that sample counts.
fn counted_unmeasured(state: &State, batch: &Name, sample: &Sample) -> Option<u32>
    requires sample { IsSampleOf state.now.entries batch.now sample.now }
    ensures { result ≡ first_unmeasured state.now.entries
        (counted_packs state.now.entries batch.now sample.now) }
{
    if is_open(sample.plan(), count_first(state, batch, sample)) {
        second_unmeasured(state, sample)
    } else {
        None
    }
}

// The first pack that isn't measured of those that have to be before the batch closes.
fn needed_unmeasured(state: &State, batch: &Name, sample: &Sample) -> Option<u32>
    requires sample { IsSampleOf state.now.entries batch.now sample.now }
    ensures { result ≡ first_unmeasured state.now.entries
        (rules.needed_packs state.now.entries batch.now sample.now) }
{
    state
        .first_unmeasured(sample.first().as_slice())
        .or(counted_unmeasured(state, batch, sample))
}

/// A pack isn't measured that has to be before the batch closes.
pub fn needed_wanting(state: &State, batch: &Name) -> Option<Refusal>
    ensures { result ≡ rules.needed_wanting state.now.entries batch.now }
{
    let sample = state.sample(batch)?;
    let pack = needed_unmeasured(state, batch, sample)?;
    Some(Refusal::Unmeasured { pack })
}

// Whether a second sample is wanted.
fn is_second_needed(state: &State, sample: &Sample, d1: u32) -> bool
    requires sample { (batch : names.Name) × IsSampleOf state.now.entries batch sample.now }
    ensures { (batch : names.Name) → d1 ≡ first_defective state.now.entries batch sample.now
        → result ≡ rules.is_second_needed state.now.entries batch sample.now }
{
    is_measured(state, sample) && is_open(sample.plan(), d1) && sample.second().is_none()
}

/// A second sample is wanted.
pub fn second_needed(state: &State, batch: &Name) -> Option<Refusal>
    ensures { result ≡ rules.second_needed state.now.entries batch.now }
{
    let sample = state.sample(batch)?;
    let d1 = count_first(state, batch, sample);
    refuse_if(
        is_second_needed(state, sample, d1),
        Refusal::SecondNeeded { d1 },
    )
}
