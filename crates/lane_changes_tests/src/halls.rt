use book_words::{Act, Name, Prior, Refused, Unit};
use lane_changes::{ChangeNotices, run_changes};
use lane_worker::{LaneEnd, LaneStop};
use memory_hall::{CellItem, MemoryCaller, enter_acts, lane_of, open_book};
use std::alloc::Global;

/// Who hears nothing.
pub(crate) struct Silent;

impl ChangeNotices for Silent {
    fn start_refused(&self, _: u8, _: Name, _: Refused) {}

    fn weight_without_batch(&self, _: u8, _: u32) {}

    fn weights_without_batch(&self, _: u8, _: u32) {}
}

/// A row that lane 1 adds.
#[derive(Clone, Copy)]
pub(crate) enum Row {
    Start(&'static [u8]),
    Weigh(i64, Prior),
    Stop(Prior),
}

/// How a lane stops, as a table in a constant can hold it.
#[derive(Clone, Copy, PartialEq, Eq)]
pub(crate) enum Stopped {
    Done,
    Cell,
    Gate,
    Bad(u32),
    /// The number of the refusal, and how many rows the book had.
    Refused(u8, u32),
    Disk,
    Turns,
    Idle(u32),
    Other,
}

impl From<LaneStop> for Stopped {
    ghost use Rattle.std.specs.Prelude.{⊤};

    ghost from_gives = { λ _ _. ⊤ };

    fn from(stop: LaneStop) -> Stopped {
        match stop {
            LaneStop::Done => Stopped::Done,
            LaneStop::Cell => Stopped::Cell,
            LaneStop::Gate => Stopped::Gate,
            LaneStop::Bad { line } => Stopped::Bad(line),
            LaneStop::Refused(refused) => Stopped::Refused(refused.refusal.number(), refused.at),
            LaneStop::DiskFault => Stopped::Disk,
            LaneStop::Turns => Stopped::Turns,
            LaneStop::Idle { weights } => Stopped::Idle(weights),
            LaneStop::Change { .. } | LaneStop::NoMemory => Stopped::Other,
        }
    }
}

/// A book before a lane is worked: nothing in it; the batches of `open_batches`; or these, and lane 1
/// started for batch A, with a pack that passed or without one.
#[derive(Clone, Copy, PartialEq, Eq)]
pub(crate) enum Before {
    Nothing,
    Batches,
    Started,
    Weighed,
}

/// The rows that `open_batches` makes.
pub(crate) const ROWS: u32 = 9;

/// The calls of the disk that they take: mounting makes four, and each row four.
pub(crate) const CALLS: u32 = 4 + 4 * ROWS;

/// A case: the book before, the items of the cell, and which calls of the cell, of the gate and of the
/// disk fail.
#[derive(Clone, Copy)]
pub(crate) struct Given<'g> {
    pub(crate) before: Before,
    pub(crate) items: &'g [CellItem],
    pub(crate) cell_fails: &'g [u32],
    pub(crate) gate_fails: &'g [u32],
    pub(crate) disk_fails: &'g [u32],
}

/// What comes of it: how the lane ends, the rows behind those of the book before, and the packs for
/// which the gate opened.
#[derive(Clone, Copy)]
pub(crate) struct Wanted<'w> {
    pub(crate) stop: Stopped,
    pub(crate) rows: &'w [Row],
    pub(crate) opened: &'w [u32],
}

// Batch B of rice, batch E, which has ended, and batch N of a product without a tare.
fn more_acts() -> Option<[Act; 5]> {
    let rice = Name::new(b"rice250".as_slice())?;
    let corn = Name::new(b"corn".as_slice())?;
    let ended = Name::new(b"E".as_slice())?;
    Some([
        open_act(b"B", rice)?,
        open_act(b"E", rice)?,
        Act::EndRun { batch: ended },
        Act::PutProduct {
            name: corn,
            nominal: 250_000,
            unit: Unit::Mass,
        },
        open_act(b"N", corn)?,
    ])
}

// The act that opens a batch.
fn open_act(name: &[u8], product: Name) -> Option<Act> {
    Some(Act::OpenBatch {
        batch: Name::new(name)?,
        product,
        density: 0,
    })
}

// The acts that start lane 1 for batch A, and weigh a pack there.
fn kill_acts() -> Option<[Act; 2]> {
    Some([
        Act::StartLane {
            lane: 1,
            batch: Name::new(b"A".as_slice())?,
        },
        Act::Weigh {
            lane: 1,
            gross: 255_000,
            prior: Prior::Nothing,
        },
    ])
}

// A book as it is before a lane is worked; lane 1 speaks.
fn book_before(alloc: Global, given: &Given) -> Option<MemoryCaller> {
    let opening = if given.before == Before::Nothing {
        0
    } else {
        4
    };
    let mut hall = open_book(alloc, given.disk_fails, opening, 1)?;
    let (more, kills) = match given.before {
        Before::Nothing => (0, 0),
        Before::Batches => (5, 0),
        Before::Started => (5, 1),
        Before::Weighed => (5, 2),
    };
    let _ = enter_acts(&mut hall, more_acts()?.get(..more).unwrap_or(&[]));
    let _ = enter_acts(&mut hall, kill_acts()?.get(..kills).unwrap_or(&[]));
    Some(hall)
}

// The act of a row.
fn act_of(row: Row) -> Option<Act> {
    Some(match row {
        Row::Start(name) => Act::StartLane {
            lane: 1,
            batch: Name::new(name)?,
        },
        Row::Weigh(gross, prior) => Act::Weigh {
            lane: 1,
            gross,
            prior,
        },
        Row::Stop(prior) => Act::StopLane { lane: 1, prior },
    })
}

// Whether an act is that of a row.
fn is_row(act: &Act, row: Row) -> bool {
    act_of(row) == Some(*act)
}

// Whether the rows of a book behind so many are these, each brought by lane 1, and no more.
fn has_rows(hall: &MemoryCaller, before: u32, rows: &[Row]) -> bool {
    let mut number = before;
    for row in rows {
        number = number.saturating_add(1);
        match hall.store().entry(number) {
            Some(entry) if entry.by == 1 && is_row(&entry.act, *row) => {}
            _ => return false,
        }
    }
    hall.store().len() == number
}

/// Whether a case comes out as it is to.
pub(crate) fn comes_out(alloc: Global, given: &Given, wanted: &Wanted) -> Option<bool> {
    let mut hall = book_before(alloc, given)?;
    let mut lane = lane_of(alloc, given.items, given.cell_fails, given.gate_fails);
    let before = hall.store().len();
    let end = run_changes(&mut hall, &mut lane, 1, &Silent);
    let LaneEnd { opened, stop } = end;
    let right = Stopped::from(stop) == wanted.stop
        && lane.gate.opened() == wanted.opened
        && opened as usize == wanted.opened.len()
        && has_rows(&hall, before, wanted.rows);
    let _ = hall.back().close();
    Some(right)
}
