//! The samples of batches, drawn anew from the entries before each draw.

use crate::entries::count_of;
use crate::packs::{Pack, population};
use crate::tables::plan_of;
use crate::taken::NoMemory;
use annex_tables::{Mode, Plan};
use book_words::{Act, Entry, Name};
use pack_judge::Pile;
use std::alloc::Global;

/// The samples of a batch.
#[derive(Drop)]
pub struct Sample {
    pub mode: Mode,
    pub plan: Plan,
    /// The packs of the first in drawing order.
    pub first: Vec<u64>,
    /// Whether a second one was drawn.
    pub has_second: bool,
    /// The packs of the second in drawing order; none where it wasn't drawn.
    pub second: Vec<u64>,
}

/// Takes so many packs out of some by a word: for each the word is stepped, and points to one of
/// those that remain.
pub fn draw(
    alloc: Global,
    word: u64,
    remaining: &mut Vec<u64>,
    many: u32,
) -> Result<Vec<u64>, NoMemory> {
    let mut drawn = Vec::new(alloc);
    let mut word = word;
    for _turn in 0..many {
        word = word
            .wrapping_mul(6_364_136_223_846_793_005)
            .wrapping_add(1_442_695_040_888_963_407);
        let many = remaining.len();
        if many > 0 {
            let index = (word / 0x2_0000_0000) as usize % many;
            drawn.push(remaining.remove(index))?;
        }
    }
    Ok(drawn)
}

// The numbers of some packs.
fn numbers_of(alloc: Global, packs: &[Pack]) -> Result<Vec<u64>, NoMemory> {
    let mut numbers = Vec::new(alloc);
    for pack in packs {
        numbers.push(u64::from(pack.number))?;
    }
    Ok(numbers)
}

// The draw of the first sample of a batch.
#[derive(Clone, Copy)]
struct Drawing {
    // Its place in the list.
    place: usize,
    mode: Mode,
    word: u64,
}

// The draw of the first sample of a batch.
fn drawing_of(entries: &[Entry], wanted: Name) -> Option<Drawing> {
    let mut found = None;
    for (place, entry) in entries.iter().enumerate() {
        if let Act::Draw { batch, mode, word } = entry.act {
            if batch == wanted {
                found = Some(Drawing { place, mode, word });
            }
        }
    }
    found
}

// The word of the second draw of a batch.
fn second_word(entries: &[Entry], wanted: Name) -> Option<u64> {
    let mut found = None;
    for entry in entries {
        if let Act::DrawSecond { batch, word } = entry.act {
            if batch == wanted {
                found = Some(word);
            }
        }
    }
    found
}

/// The samples of a batch, where one was drawn.
pub fn sample_of(
    alloc: Global,
    entries: &[Entry],
    batch: Name,
) -> Result<Option<Sample>, NoMemory> {
    let Some(Drawing { place, mode, word }) = drawing_of(entries, batch) else {
        return Ok(None);
    };
    let before = entries.get(..place).unwrap_or(entries);
    let packs = population(alloc, before, batch)?;
    let plan = plan_of(count_of(packs.len()), mode);
    let mut left = numbers_of(alloc, &packs)?;
    let first = draw(alloc, word, &mut left, plan.first)?;
    let again = second_word(entries, batch);
    let many = if again.is_some() { plan.second } else { 0 };
    let second = draw(alloc, again.unwrap_or(0), &mut left, many)?;
    Ok(Some(Sample {
        mode,
        plan,
        first,
        has_second: again.is_some(),
        second,
    }))
}

// Whether a pack was drawn.
fn is_drawn(sample: &Sample, number: u32) -> bool {
    let number = u64::from(number);
    sample.first.contains(&number) || sample.second.contains(&number)
}

/// The pile of a pack whose batch has this sample.
pub fn pile_of(pack: &Pack, sample: &Option<Sample>) -> Pile {
    match sample {
        Some(sample) if pack.pile == Pile::Passed && is_drawn(sample, pack.number) => Pile::Sampled,
        _ => pack.pile,
    }
}

/// The samples of the batch of a pack, where one was drawn.
pub fn sample_of_pack(
    alloc: Global,
    entries: &[Entry],
    pack: &Pack,
) -> Result<Option<Sample>, NoMemory> {
    match pack.batch {
        Some(batch) => sample_of(alloc, entries, batch),
        None => Ok(None),
    }
}
