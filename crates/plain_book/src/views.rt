//! What the book tells of a batch, a pack, a lane, a sample and the whole hall.

use crate::entries::{count_of, lane_batch, opening_of, state_of, unsettled_of};
use crate::measures::measured_count;
use crate::packs::{
    Bounds, Pack, bounds_of, class_of, count_below, net_of, nets_of, pack_at, pack_of, population,
    sum_of,
};
use crate::samples::{pile_of, sample_of, sample_of_pack};
use crate::tables::error_of;
use crate::taken::NoMemory;
use crate::verdicts::{defectives, verdict_of};
use book_words::{
    Act, ActList, ActView, BatchState, Entry, LaneView, MAX_PAGE, Name, PackList, PackView,
    PacksView, Question, Refusal, Reply, RowsView, SampleView, Sheet, SummaryView, TestView,
    Verdict,
};
use pack_judge::{Pile, Tally};
use sample_draw::Picks;
use std::alloc::Global;

/// What a question is told.
pub type Told = Result<Reply, Refusal>;

// A pack with the pile in which it lies.
#[derive(Clone, Copy)]
struct Lying {
    pack: Pack,
    pile: Pile,
}

// The packs of the list, or those of one batch, with their piles.
fn packs_lying(
    alloc: Global,
    entries: &[Entry],
    batch: Option<Name>,
) -> Result<Vec<Lying>, NoMemory> {
    let mut all = Vec::new(alloc);
    let mut sample = None;
    let mut sampled = None;
    for place in 0..entries.len() {
        let Some(pack) = pack_at(entries, place) else {
            continue;
        };
        if pack.batch != sampled {
            sample = sample_of_pack(alloc, entries, &pack)?;
            sampled = pack.batch;
        }
        if batch.is_none() || pack.batch == batch {
            let pile = pile_of(&pack, &sample);
            all.push(Lying { pack, pile })?;
        }
    }
    Ok(all)
}

// How many of some packs lie in a pile, or there are, and their gross together.
fn tally(packs: &[Lying], pile: Option<Pile>) -> Tally {
    let mut tally = Tally { count: 0, gross: 0 };
    for lying in packs {
        if pile.is_none() || pile == Some(lying.pile) {
            tally.count = tally.count.saturating_add(1);
            tally.gross = tally.gross.saturating_add(lying.pack.gross);
        }
    }
    tally
}

// The packs of the hall or of a batch, and those of each pile.
#[derive(Clone, Copy)]
struct Tallies {
    readings: Tally,
    passed: Tally,
    rejected: Tally,
    sampled: Tally,
    voided: Tally,
}

fn tallies_of(alloc: Global, entries: &[Entry], batch: Option<Name>) -> Result<Tallies, NoMemory> {
    let packs = packs_lying(alloc, entries, batch)?;
    Ok(Tallies {
        readings: tally(&packs, None),
        passed: tally(&packs, Some(Pile::Passed)),
        rejected: tally(&packs, Some(Pile::Rejected)),
        sampled: tally(&packs, Some(Pile::Sampled)),
        voided: tally(&packs, Some(Pile::Voided)),
    })
}

// What is told of the test of a batch, where a sample was drawn.
fn test_view(
    alloc: Global,
    entries: &[Entry],
    batch: Name,
    bounds: &Bounds,
) -> Result<Option<TestView>, NoMemory> {
    let Some(sample) = sample_of(alloc, entries, batch)? else {
        return Ok(None);
    };
    let (d1, d2) = defectives(entries, bounds, &sample);
    Ok(Some(TestView {
        mode: sample.mode,
        first: count_of(sample.first.len()),
        measured1: measured_count(entries, &sample.first),
        d1,
        second: count_of(sample.second.len()),
        measured2: measured_count(entries, &sample.second),
        d2,
    }))
}

// The verdict of a batch in a state: there is one once it is closed.
fn verdict_in(
    alloc: Global,
    entries: &[Entry],
    batch: Name,
    state: BatchState,
) -> Result<Option<Verdict>, NoMemory> {
    if state != BatchState::Closed {
        return Ok(None);
    }
    Ok(Some(verdict_of(alloc, entries, batch)?))
}

// The sheet of a batch, where it was opened.
fn sheet_of(alloc: Global, entries: &[Entry], batch: Name) -> Result<Option<Sheet>, NoMemory> {
    let (Some(opening), Some(bounds), Some(state)) = (
        opening_of(entries, batch),
        bounds_of(entries, batch),
        state_of(entries, batch),
    ) else {
        return Ok(None);
    };
    let tallies = tallies_of(alloc, entries, Some(batch))?;
    let counted = population(alloc, entries, batch)?;
    let nets = nets_of(alloc, entries, &counted)?;
    let inadequate = count_below(&bounds, bounds.t2, &nets);
    Ok(Some(Sheet {
        batch,
        product: opening.product,
        nominal: bounds.nominal,
        unit: bounds.unit,
        tne: error_of(bounds.nominal),
        density: opening.density,
        state,
        readings: tallies.readings,
        passed: tallies.passed,
        rejected: tallies.rejected,
        sampled: tallies.sampled,
        voided: tallies.voided,
        population: count_of(counted.len()),
        net: sum_of(&nets),
        nonstandard: count_below(&bounds, bounds.t1, &nets),
        inadequate,
        held: inadequate > 0,
        test: test_view(alloc, entries, batch, &bounds)?,
        verdict: verdict_in(alloc, entries, batch, state)?,
    }))
}

// What is told of a pack that lies in a pile.
fn view_of(entries: &[Entry], pack: &Pack, pile: Pile) -> Option<PackView> {
    let batch = pack.batch?;
    let bounds = bounds_of(entries, batch)?;
    let net = net_of(entries, pack, pack.gross);
    Some(PackView {
        pack: pack.number,
        batch,
        product: opening_of(entries, batch)?.product,
        lane: pack.lane,
        day: pack.day?,
        gross: pack.gross,
        net,
        class: class_of(&bounds, net),
        signal: pack.signal?,
        pile,
    })
}

/// What stands of the pack of a number.
pub fn pack_view(
    alloc: Global,
    entries: &[Entry],
    number: u32,
) -> Result<Option<PackView>, NoMemory> {
    let Some(pack) = pack_of(entries, number) else {
        return Ok(None);
    };
    let sample = sample_of_pack(alloc, entries, &pack)?;
    Ok(view_of(entries, &pack, pile_of(&pack, &sample)))
}

fn tell_lane(entries: &[Entry], lane: u8) -> Told {
    if lane < 1 || lane > 16 {
        return Err(Refusal::LaneNumber);
    }
    Ok(Reply::LaneIs(LaneView {
        lane,
        batch: lane_batch(entries, lane),
        unsettled: unsettled_of(entries, lane),
    }))
}

fn tell_sample(alloc: Global, entries: &[Entry], batch: Name) -> Result<Told, NoMemory> {
    if opening_of(entries, batch).is_none() {
        return Ok(Err(Refusal::BatchUnknown));
    }
    let Some(sample) = sample_of(alloc, entries, batch)? else {
        return Ok(Err(Refusal::NotDrawn));
    };
    Ok(Ok(Reply::SampleIs(SampleView {
        batch,
        first: Picks::from(sample.first),
        second: Picks::from(sample.second),
    })))
}

// How many batches are in a state.
fn batches_in(entries: &[Entry], state: BatchState) -> u32 {
    let mut count: u32 = 0;
    for entry in entries {
        if let Act::OpenBatch { batch, .. } = entry.act {
            if state_of(entries, batch) == Some(state) {
                count = count.saturating_add(1);
            }
        }
    }
    count
}

/// The balance of the whole hall.
pub fn summary(alloc: Global, entries: &[Entry]) -> Result<SummaryView, NoMemory> {
    let tallies = tallies_of(alloc, entries, None)?;
    Ok(SummaryView {
        rows: count_of(entries.len()),
        readings: tallies.readings,
        passed: tallies.passed,
        rejected: tallies.rejected,
        sampled: tallies.sampled,
        voided: tallies.voided,
        running: batches_in(entries, BatchState::Running),
        ended: batches_in(entries, BatchState::Ended),
        drawn: batches_in(entries, BatchState::Drawn),
        closed: batches_in(entries, BatchState::Closed),
    })
}

// The verdict that the entry at the end of a list was told, where that closes a batch.
fn verdict_of_last(alloc: Global, until: &[Entry]) -> Result<Option<Verdict>, NoMemory> {
    match until.last() {
        Some(
            Entry {
                act: Act::Close { batch },
                ..
            },
        ) => Ok(Some(verdict_of(alloc, until, *batch)?)),
        _ => Ok(None),
    }
}

// The page behind so many rows.
fn rows_view(alloc: Global, entries: &[Entry], after: u32) -> Result<RowsView, NoMemory> {
    let before = after.min(count_of(entries.len()));
    let mut acts = Vec::new(alloc);
    for (place, entry) in entries.iter().enumerate() {
        let row = count_of(place).saturating_add(1);
        if row > before && row - before <= MAX_PAGE {
            let until = entries.get(..row as usize).unwrap_or(entries);
            acts.push(ActView {
                row,
                entry: *entry,
                verdict: verdict_of_last(alloc, until)?,
            })?;
        }
    }
    Ok(RowsView {
        before,
        acts: ActList::from(acts),
    })
}

// The page of the packs of a batch above a number.
fn packs_view(
    alloc: Global,
    entries: &[Entry],
    batch: Name,
    after: u32,
) -> Result<PacksView, NoMemory> {
    let mut packs = Vec::new(alloc);
    for number in after..count_of(entries.len()) {
        let view = pack_view(alloc, entries, number.saturating_add(1))?;
        push_of_batch(&mut packs, view, batch)?;
    }
    Ok(PacksView {
        packs: PackList::from(packs),
    })
}

// Adds a pack to a page that isn't full, where it is one of the batch.
fn push_of_batch(
    packs: &mut Vec<PackView>,
    view: Option<PackView>,
    batch: Name,
) -> Result<(), NoMemory> {
    match view {
        Some(view) if view.batch == batch && packs.len() < MAX_PAGE as usize => {
            packs.push(view)?;
            Ok(())
        }
        _ => Ok(()),
    }
}

fn tell_packs(alloc: Global, entries: &[Entry], batch: Name, after: u32) -> Result<Told, NoMemory> {
    if opening_of(entries, batch).is_none() {
        return Ok(Err(Refusal::BatchUnknown));
    }
    let view = packs_view(alloc, entries, batch, after)?;
    Ok(Ok(Reply::PacksAre(view)))
}

/// What a question is told.
pub fn tell(alloc: Global, entries: &[Entry], question: &Question) -> Result<Told, NoMemory> {
    match *question {
        Question::Sheet { batch } => match sheet_of(alloc, entries, batch)? {
            Some(sheet) => Ok(Ok(Reply::SheetIs(sheet))),
            None => Ok(Err(Refusal::BatchUnknown)),
        },
        Question::Pack { pack } => match pack_view(alloc, entries, pack)? {
            Some(view) => Ok(Ok(Reply::PackIs(view))),
            None => Ok(Err(Refusal::PackUnknown)),
        },
        Question::Lane { lane } => Ok(tell_lane(entries, lane)),
        Question::Sample { batch } => tell_sample(alloc, entries, batch),
        Question::Summary => Ok(Ok(Reply::SummaryIs(summary(alloc, entries)?))),
        Question::Rows { after } => Ok(Ok(Reply::RowsAre(rows_view(alloc, entries, after)?))),
        Question::Shipment { after } => {
            Ok(Ok(Reply::ShipmentIs(rows_view(alloc, entries, after)?)))
        }
        Question::Packs { batch, after } => tell_packs(alloc, entries, batch, after),
    }
}
