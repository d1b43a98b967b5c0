//! What a list of entries says of days, products, batches, lanes, tares and desks. Each question
//! walks the list anew.

use book_words::{Act, BatchState, Entry, Name, Unit};
use pack_judge::Signal;

/// A place in the list, counted from 0, as the number of a row, counted from 1.
pub fn number_at(place: usize) -> u32 {
    count_of(place).saturating_add(1)
}

/// A length as a number of 32 bits.
pub fn count_of(many: usize) -> u32 {
    u32::try_from(many).unwrap_or(u32::MAX)
}

/// The day that was set last.
pub fn newest_day(entries: &[Entry]) -> Option<i32> {
    let mut newest = None;
    for entry in entries {
        if let Act::NewDay { day } = entry.act {
            newest = Some(day);
        }
    }
    newest
}

/// What was put for a product.
#[derive(Clone, Copy)]
pub struct Product {
    /// In mg or microlitres.
    pub nominal: i64,
    pub unit: Unit,
}

/// What was put for a product.
pub fn product_named(entries: &[Entry], wanted: Name) -> Option<Product> {
    for entry in entries {
        if let Act::PutProduct {
            name,
            nominal,
            unit,
        } = entry.act
        {
            if name == wanted {
                return Some(Product { nominal, unit });
            }
        }
    }
    None
}

/// How a batch was opened.
#[derive(Clone, Copy)]
pub struct Opening {
    pub product: Name,
    /// In mg a litre, 0 for goods by mass.
    pub density: u32,
}

/// How a batch was opened.
pub fn opening_of(entries: &[Entry], wanted: Name) -> Option<Opening> {
    for entry in entries {
        if let Act::OpenBatch {
            batch,
            product,
            density,
        } = entry.act
        {
            if batch == wanted {
                return Some(Opening { product, density });
            }
        }
    }
    None
}

// The batch that an act brings into a state, and the state.
fn state_set(act: Act) -> Option<(Name, BatchState)> {
    match act {
        Act::OpenBatch { batch, .. } => Some((batch, BatchState::Running)),
        Act::EndRun { batch } => Some((batch, BatchState::Ended)),
        Act::Draw { batch, .. } => Some((batch, BatchState::Drawn)),
        Act::Close { batch } => Some((batch, BatchState::Closed)),
        _ => None,
    }
}

/// The state of a batch, by the last of its openings, ends, draws and closings.
pub fn state_of(entries: &[Entry], wanted: Name) -> Option<BatchState> {
    let mut state = None;
    for entry in entries {
        if let Some((batch, now)) = state_set(entry.act) {
            if batch == wanted {
                state = Some(now);
            }
        }
    }
    state
}

/// The batch that a lane has: that of its last start, unless it was stopped after it.
pub fn lane_batch(entries: &[Entry], wanted: u8) -> Option<Name> {
    let mut found = None;
    for entry in entries {
        match entry.act {
            Act::StartLane { lane, batch } if lane == wanted => found = Some(batch),
            Act::StopLane { lane, .. } if lane == wanted => found = None,
            _ => {}
        }
    }
    found
}

/// The batch for which a lane was started last.
pub fn last_start(entries: &[Entry], wanted: u8) -> Option<Name> {
    let mut found = None;
    for entry in entries {
        if let Act::StartLane { lane, batch } = entry.act {
            if lane == wanted {
                found = Some(batch);
            }
        }
    }
    found
}

/// The unsettled pack of a lane: that of its last weighing or stop, where this is a weighing that
/// passed.
pub fn unsettled_of(entries: &[Entry], wanted: u8) -> Option<u32> {
    let mut unsettled = None;
    for (place, entry) in entries.iter().enumerate() {
        match entry.act {
            Act::Weigh { lane, .. } if lane == wanted => {
                let is_passed = entry.signal == Some(Signal::Pass);
                unsettled = is_passed.then_some(number_at(place));
            }
            Act::StopLane { lane, .. } if lane == wanted => unsettled = None,
            _ => {}
        }
    }
    unsettled
}

/// The tare of a product on a day, in mg: of those for the greatest day up to it, the last.
pub fn tare_of_product(entries: &[Entry], wanted: Name, until: i32) -> Option<i64> {
    let mut greatest = i32::MIN;
    let mut found = None;
    for entry in entries {
        if let Act::PutTare { product, day, tare } = entry.act {
            if product == wanted && greatest <= day && day <= until {
                greatest = day;
                found = Some(tare);
            }
        }
    }
    found
}

/// A row of the list.
#[derive(Clone, Copy)]
pub struct Row {
    pub number: u32,
    pub entry: Entry,
}

/// The newest row that a desk asked for.
pub fn newest_of_desk(entries: &[Entry], desk: u16) -> Option<Row> {
    let mut newest = None;
    for (place, entry) in entries.iter().enumerate() {
        if entry.desk == desk {
            newest = Some(Row {
                number: number_at(place),
                entry: *entry,
            });
        }
    }
    newest
}
