//! Why an act is refused. Each function tests the rules of its act in the order of their numbers.

use crate::entries::{
    count_of, lane_batch, newest_day, newest_of_desk, opening_of, product_named, state_of,
    tare_of_product, unsettled_of,
};
use crate::measures::{first_unmeasured, measured_of};
use crate::packs::{Bounds, Pack, bounds_of, pack_at, pack_of, population, tare_of_pack};
use crate::samples::{Sample, pile_of, sample_of, sample_of_pack};
use crate::taken::NoMemory;
use crate::verdicts::{defectives, is_open};
use annex_tables::Mode;
use book_words::{Act, Ask, BatchState, Entry, Name, Prior, Refusal, Unit};
use pack_judge::Pile;
use std::alloc::Global;

/// Whether an act is a lane's.
pub fn is_lane_act(act: &Act) -> bool {
    matches!(
        act,
        Act::StartLane { .. } | Act::Weigh { .. } | Act::StopLane { .. }
    )
}

/// Whether the desk of an act is wrong: neither 0 without a request, nor a desk's number with an
/// act that isn't a lane's.
pub fn is_desk_wrong(ask: &Ask, act: &Act) -> bool {
    if ask.desk == 0 {
        ask.request != 0
    } else {
        ask.desk < 101 || ask.desk > 164 || is_lane_act(act)
    }
}

/// The row that an ask of a desk repeats: its newest, with the same request and act.
pub fn repeated_row(entries: &[Entry], ask: &Ask, act: &Act) -> Option<u32> {
    let row = newest_of_desk(entries, ask.desk)?;
    let is_same = row.entry.request == ask.request && row.entry.act == *act;
    (ask.request > 0 && is_same).then_some(row.number)
}

// Refusals by the request of a desk.
fn refuse_request(entries: &[Entry], ask: &Ask) -> Option<Refusal> {
    let (row, last) = match newest_of_desk(entries, ask.desk) {
        Some(newest) => (newest.number, newest.entry.request),
        None => (0, 0),
    };
    if ask.desk == 0 {
        None
    } else if ask.request == 0 || ask.request < last {
        Some(Refusal::RequestOld { last })
    } else if ask.request == last {
        Some(Refusal::RequestReused { row })
    } else if ask.request > last.saturating_add(1) {
        Some(Refusal::RequestGap { last })
    } else {
        None
    }
}

// Whether a number is neither below one nor above another.
fn is_within(number: i64, least: i64, most: i64) -> bool {
    least <= number && number <= most
}

fn is_day(day: i32) -> bool {
    is_within(i64::from(day), 0, 2_932_896)
}

fn is_tare(mass: i64) -> bool {
    is_within(mass, 0, 5_000_000)
}

fn is_gross(mass: i64) -> bool {
    is_within(mass, 0, 30_000_000)
}

// Whether a name is letters, digits, `-`, `_` and `.` of ASCII, the first a letter or digit.
fn has_shape(name: &Name) -> bool {
    let mut is_good = true;
    let mut is_first = true;
    for byte in name.as_bytes() {
        let is_mark = matches!(*byte, b'-' | b'_' | b'.');
        is_good = is_good && (byte.is_ascii_alphanumeric() || is_mark && !is_first);
        is_first = false;
    }
    is_good
}

fn refuse_day(entries: &[Entry], day: i32) -> Option<Refusal> {
    match newest_day(entries) {
        Some(last) if day < last => Some(Refusal::DayBack { last }),
        _ if is_day(day) => None,
        _ => Some(Refusal::DayRange),
    }
}

fn refuse_product(entries: &[Entry], name: Name, nominal: i64) -> Option<Refusal> {
    if product_named(entries, name).is_some() {
        Some(Refusal::ProductKnown)
    } else if !has_shape(&name) {
        Some(Refusal::NameShape)
    } else if !is_within(nominal, 5_000, 10_000_000) {
        Some(Refusal::NominalRange)
    } else {
        None
    }
}

// Whether a pack of a batch has one tare by some entries and another by others.
fn is_retared(before: &[Entry], after: &[Entry], batch: Name) -> bool {
    for place in 0..before.len() {
        if let Some(pack) = pack_at(before, place) {
            if pack.batch == Some(batch)
                && tare_of_pack(before, &pack) != tare_of_pack(after, &pack)
            {
                return true;
            }
        }
    }
    false
}

// The first closed batch, by opening, of which a pack has another tare with one entry more.
fn first_frozen(before: &[Entry], after: &[Entry]) -> Option<Name> {
    for entry in before {
        if let Act::OpenBatch { batch, .. } = entry.act {
            if state_of(before, batch) == Some(BatchState::Closed)
                && is_retared(before, after, batch)
            {
                return Some(batch);
            }
        }
    }
    None
}

fn refuse_tare(
    before: &[Entry],
    after: &[Entry],
    product: Name,
    day: i32,
    tare: i64,
) -> Option<Refusal> {
    if product_named(before, product).is_none() {
        Some(Refusal::ProductUnknown)
    } else if !is_day(day) {
        Some(Refusal::DayRange)
    } else if !is_tare(tare) {
        Some(Refusal::TareRange)
    } else {
        let batch = first_frozen(before, after)?;
        Some(Refusal::TareFrozen { batch })
    }
}

fn refuse_opening(entries: &[Entry], batch: Name, name: Name, density: u32) -> Option<Refusal> {
    let Some(product) = product_named(entries, name) else {
        return Some(Refusal::ProductUnknown);
    };
    let is_dense = density >= 500_000 && density <= 2_000_000;
    let is_suitable = match product.unit {
        Unit::Mass => density == 0,
        Unit::Volume => is_dense,
    };
    if !has_shape(&batch) {
        Some(Refusal::NameShape)
    } else if opening_of(entries, batch).is_some() {
        Some(Refusal::BatchKnown)
    } else if !is_suitable {
        Some(Refusal::DensityRange)
    } else {
        None
    }
}

// Refusals by a batch that isn't there, or isn't in one of two states.
fn refuse_state(
    entries: &[Entry],
    batch: Name,
    allowed: BatchState,
    other: BatchState,
) -> Option<Refusal> {
    match state_of(entries, batch) {
        None => Some(Refusal::BatchUnknown),
        Some(state) if state != allowed && state != other => Some(Refusal::BatchState { state }),
        Some(_) => None,
    }
}

fn refuse_start(entries: &[Entry], lane: u8, batch: Name) -> Option<Refusal> {
    let running = BatchState::Running;
    if let Some(refusal) = refuse_state(entries, batch, running, running) {
        return Some(refusal);
    }
    if lane < 1 || lane > 16 {
        return Some(Refusal::LaneNumber);
    }
    if let Some(batch) = lane_batch(entries, lane) {
        return Some(Refusal::LaneBusy { batch });
    }
    let product = opening_of(entries, batch)?.product;
    match tare_of_product(entries, product, newest_day(entries)?) {
        None => Some(Refusal::NoTare { product }),
        Some(_) => None,
    }
}

// Refusals of a weighing; and of a stop, which is read as a weighing of nothing.
fn refuse_weighing(entries: &[Entry], lane: u8, gross: i64, prior: Prior) -> Option<Refusal> {
    let wanted = unsettled_of(entries, lane).is_some();
    if lane < 1 || lane > 16 {
        Some(Refusal::LaneNumber)
    } else if lane_batch(entries, lane).is_none() {
        Some(Refusal::LaneIdle)
    } else if !is_gross(gross) {
        Some(Refusal::GrossRange)
    } else if wanted == (prior == Prior::Nothing) {
        Some(Refusal::PriorWrong { wanted })
    } else {
        None
    }
}

fn refuse_end(entries: &[Entry], batch: Name) -> Option<Refusal> {
    let running = BatchState::Running;
    if let Some(refusal) = refuse_state(entries, batch, running, running) {
        return Some(refusal);
    }
    for lane in 1..17 {
        if lane_batch(entries, lane) == Some(batch) {
            return Some(Refusal::LanesRunning { lane });
        }
    }
    None
}

// Refusals by the state of the batch of a pack, which has to be one of two.
fn refuse_state_of_pack(
    entries: &[Entry],
    pack: &Pack,
    allowed: BatchState,
    other: BatchState,
) -> Option<Refusal> {
    refuse_state(entries, pack.batch?, allowed, other)
}

// Refusals of a void, by the samples of the batch of its pack.
fn refuse_void(entries: &[Entry], pack: &Pack, sample: &Option<Sample>) -> Option<Refusal> {
    let pile = pile_of(pack, sample);
    let running = BatchState::Running;
    match refuse_state_of_pack(entries, pack, running, BatchState::Ended) {
        Some(refusal) => Some(refusal),
        None if pile != Pile::Passed => Some(Refusal::PackPile { pile }),
        None if pack.unsettled => Some(Refusal::Unsettled { lane: pack.lane }),
        None => None,
    }
}

// Whether the mass of an empty pack suits the mode of its test.
fn is_empty_good(sample: &Option<Sample>, empty: i64) -> bool {
    match sample {
        Some(sample) if sample.mode == Mode::Keep => empty == 0,
        _ => is_tare(empty),
    }
}

// Refusals of a measurement, by the samples of the batch of its pack.
fn refuse_measure(
    entries: &[Entry],
    pack: &Pack,
    sample: &Option<Sample>,
    gross: i64,
    empty: i64,
) -> Option<Refusal> {
    let drawn = BatchState::Drawn;
    if let Some(refusal) = refuse_state_of_pack(entries, pack, drawn, drawn) {
        return Some(refusal);
    }
    let pile = pile_of(pack, sample);
    if !is_gross(gross) {
        Some(Refusal::GrossRange)
    } else if !is_empty_good(sample, empty) {
        Some(Refusal::TareRange)
    } else if pile != Pile::Sampled {
        Some(Refusal::PackPile { pile })
    } else {
        let value = measured_of(entries, u64::from(pack.number))?.gross;
        Some(Refusal::MeasuredAlready { value })
    }
}

// Refusals of an act that looks at a pack which isn't there.
fn refuse_unknown(act: &Act) -> Option<Refusal> {
    match act {
        Act::Measure { gross, .. } if !is_gross(*gross) => Some(Refusal::GrossRange),
        Act::Measure { empty, .. } if !is_tare(*empty) => Some(Refusal::TareRange),
        _ => Some(Refusal::PackUnknown),
    }
}

// Refusals of an act that looks at one pack.
fn refuse_pack_act(
    alloc: Global,
    entries: &[Entry],
    act: &Act,
    number: u32,
) -> Result<Option<Refusal>, NoMemory> {
    let Some(pack) = pack_of(entries, number) else {
        return Ok(refuse_unknown(act));
    };
    let sample = sample_of_pack(alloc, entries, &pack)?;
    match *act {
        Act::Measure { gross, empty, .. } => {
            Ok(refuse_measure(entries, &pack, &sample, gross, empty))
        }
        _ => Ok(refuse_void(entries, &pack, &sample)),
    }
}

// Refusals of a first draw, by the number of packs in the population.
fn refuse_draw(entries: &[Entry], batch: Name, mode: Mode, n: u32) -> Option<Refusal> {
    let ended = BatchState::Ended;
    match refuse_state(entries, batch, ended, ended) {
        Some(refusal) => Some(refusal),
        None if n == 0 => Some(Refusal::BatchEmpty),
        None if mode == Mode::Destroy && n <= 99 => Some(Refusal::ModeSmall { n }),
        None => None,
    }
}

// Refusals of a second draw, by the first one.
fn refuse_second(entries: &[Entry], bounds: &Bounds, sample: &Sample) -> Option<Refusal> {
    let (d1, _) = defectives(entries, bounds, sample);
    let unmeasured = first_unmeasured(entries, &sample.first);
    let is_decided = unmeasured.is_none() && !is_open(&sample.plan, d1);
    if sample.plan.second == 0 || sample.has_second || is_decided {
        Some(Refusal::SecondNotNeeded { d1 })
    } else {
        Some(Refusal::Unmeasured { pack: unmeasured? })
    }
}

// Refusals of a closing, by the samples.
fn refuse_close(entries: &[Entry], bounds: &Bounds, sample: &Sample) -> Option<Refusal> {
    let (d1, _) = defectives(entries, bounds, sample);
    if let Some(pack) = first_unmeasured(entries, &sample.first) {
        return Some(Refusal::Unmeasured { pack });
    }
    if !is_open(&sample.plan, d1) {
        return None;
    }
    if !sample.has_second {
        return Some(Refusal::SecondNeeded { d1 });
    }
    let pack = first_unmeasured(entries, &sample.second)?;
    Some(Refusal::Unmeasured { pack })
}

// Refusals of a second draw or a closing of a batch.
fn refuse_sample_act(
    alloc: Global,
    entries: &[Entry],
    act: &Act,
    batch: Name,
) -> Result<Option<Refusal>, NoMemory> {
    let is_close = matches!(act, Act::Close { .. });
    let drawn = BatchState::Drawn;
    let other = if is_close { BatchState::Ended } else { drawn };
    if let Some(refusal) = refuse_state(entries, batch, drawn, other) {
        return Ok(Some(refusal));
    }
    let sample = sample_of(alloc, entries, batch)?;
    match (bounds_of(entries, batch), &sample) {
        (Some(bounds), Some(sample)) if is_close => Ok(refuse_close(entries, &bounds, sample)),
        (Some(bounds), Some(sample)) => Ok(refuse_second(entries, &bounds, sample)),
        _ if population(alloc, entries, batch)?.is_empty() => Ok(None),
        _ => Ok(Some(Refusal::NotDrawn)),
    }
}

// Refusals of an act that looks at packs.
fn refuse_test_act(
    alloc: Global,
    before: &[Entry],
    act: &Act,
) -> Result<Option<Refusal>, NoMemory> {
    match *act {
        Act::Void { pack } => refuse_pack_act(alloc, before, act, pack),
        Act::Measure { pack, .. } => refuse_pack_act(alloc, before, act, pack),
        Act::Draw { batch, mode, .. } => {
            let n = count_of(population(alloc, before, batch)?.len());
            Ok(refuse_draw(before, batch, mode, n))
        }
        Act::DrawSecond { batch, .. } => refuse_sample_act(alloc, before, act, batch),
        Act::Close { batch } => refuse_sample_act(alloc, before, act, batch),
        _ => Ok(None),
    }
}

// Refusals of any other act. `after` is the list with the act.
fn refuse_other_act(before: &[Entry], after: &[Entry], act: &Act) -> Option<Refusal> {
    match *act {
        Act::NewDay { day } => refuse_day(before, day),
        Act::PutProduct { name, nominal, .. } => refuse_product(before, name, nominal),
        Act::PutTare { product, day, tare } => refuse_tare(before, after, product, day, tare),
        Act::OpenBatch {
            batch,
            product,
            density,
        } => refuse_opening(before, batch, product, density),
        Act::StartLane { lane, batch } => refuse_start(before, lane, batch),
        Act::Weigh { lane, gross, prior } => refuse_weighing(before, lane, gross, prior),
        Act::StopLane { lane, prior } => refuse_weighing(before, lane, 0, prior),
        Act::EndRun { batch } => refuse_end(before, batch),
        _ => None,
    }
}

/// Why the act that stands last is refused behind the entries before it, of which there may be
/// fewer than `limit`. It repeats none of them.
pub fn refuse_last(
    alloc: Global,
    after: &[Entry],
    limit: u32,
    ask: &Ask,
    act: &Act,
) -> Result<Option<Refusal>, NoMemory> {
    let before = after.get(..after.len().saturating_sub(1)).unwrap_or(after);
    if let Some(refusal) = refuse_request(before, ask) {
        return Ok(Some(refusal));
    }
    if before.len() >= limit as usize {
        return Ok(Some(Refusal::BookFull { limit }));
    }
    if newest_day(before).is_none() && !matches!(act, Act::NewDay { .. }) {
        return Ok(Some(Refusal::DayUnset));
    }
    match refuse_other_act(before, after, act) {
        Some(refusal) => Ok(Some(refusal)),
        None => refuse_test_act(alloc, before, act),
    }
}
