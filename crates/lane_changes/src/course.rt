//! What a changing lane keeps of its works and waits so far.
ghost use Rattle.std.specs.Prelude.{◌≡◌};
ghost use Rattle.lane_changes.specs.Stints.{start_refused, behind_stop, behind_item, item_stop, item_weight, told_stop, waits_or_ends, first_of};

use crate::changing::MAX_STINTS;
use crate::types::Next;
use book_words::{Refusal, Refused};
use lane_worker::{CellNext, LaneEnd, LaneStop};

/// What is kept of the works and waits of a changing lane.
#[derive(Clone, Copy)]
pub(crate) struct Course {
    pub next: Next,
    /// How many works and waits there were.
    pub stints: u32,
    /// The stop of the last of them.
    pub stop: LaneStop,
    /// How often the gate opened, up to the greatest `u32`.
    pub opened: u32,
    /// The first start that the book refused.
    pub refused: Option<Refused>,
    /// How many weights came without a batch.
    pub weights: u32,
    /// How many of them since the lane waits.
    pub since: u32,
}

// The refusal of a start behind which a lane waits for another batch.
pub(crate) fn start_refused(stop: LaneStop) -> Option<Refused>
    ensures { result ≡ start_refused stop }
{
    let LaneStop::Refused(refused) = stop else {
        return None;
    };
    match refused.refusal {
        Refusal::DayUnset
        | Refusal::BatchUnknown
        | Refusal::BatchState { state: _ }
        | Refusal::NoTare { product: _ } => Some(refused),
        _ => None,
    }
}

// What follows a refused start, or another stop.
fn waits_or_ends(refused: Option<Refused>) -> Next
    ensures { result ≡ waits_or_ends refused }
{
    match refused {
        Some(_) => Next::Waits,
        None => Next::Ends,
    }
}

// What follows a work that came to this stop.
fn behind_stop(stop: LaneStop) -> Next
    ensures { result ≡ behind_stop stop }
{
    match stop {
        LaneStop::Change { batch, line: _ } => Next::Works(batch),
        _ => waits_or_ends(start_refused(stop)),
    }
}

// What follows a wait in which the cell gave this.
fn behind_item(item: CellNext) -> Next
    ensures { result ≡ behind_item item }
{
    match item {
        CellNext::Gross(_) => Next::Waits,
        CellNext::Batch { batch, line: _ } => Next::Works(batch),
        CellNext::End | CellNext::Bad { line: _ } | CellNext::Spent => Next::Ends,
    }
}

// The stop of such a wait, where it is the last.
fn item_stop(item: CellNext) -> LaneStop
    ensures { result ≡ item_stop item }
{
    match item {
        CellNext::Bad { line } => LaneStop::Bad { line },
        CellNext::Spent => LaneStop::Turns,
        CellNext::Gross(_) | CellNext::Batch { batch: _, line: _ } | CellNext::End => {
            LaneStop::Done
        }
    }
}

// How many weights a wait is for: one, or none.
fn item_weight(item: CellNext) -> u32
    ensures { result ≡ item_weight item }
{
    match item {
        CellNext::Gross(_) => 1,
        _ => 0,
    }
}

// How many weights came since a lane waits, behind one more or something else.
fn since_behind(since: u32, weight: u32) -> u32 {
    if weight > 0 {
        since.saturating_add(1)
    } else {
        0
    }
}

// The first of two refusals.
fn first_of(one: Option<Refused>, other: Option<Refused>) -> Option<Refused>
    ensures { result ≡ first_of one other }
{
    match one {
        Some(refused) => Some(refused),
        None => other,
    }
}

// The stop of a lane that has ended: that of its last work or wait; where that is `Done`, the first
// refused start, or how many weights came without a batch, if any.
fn told_stop(stop: LaneStop, refused: Option<Refused>, weights: u32) -> LaneStop
    ensures { result ≡ told_stop stop refused weights }
{
    match (stop, refused) {
        (LaneStop::Done, Some(refused)) => LaneStop::Refused(refused),
        (LaneStop::Done, None) if weights > 0 => LaneStop::Idle { weights },
        _ => stop,
    }
}

impl Course {
    ghost use Rattle.book_words.specs.declared.name.Name.{Name};
    ghost use Rattle.lane_worker.specs.Works.{Work};
    ghost use Rattle.std.specs.Prelude.{◌≡◌, ◌<◌, ◌≤◌, true};
    ghost use Rattle.lane_changes.specs.declared.changing.TheConstants.{MAX_STINTS};
    ghost use Rattle.lane_changes.specs.Stints.{WorkStint, WaitStint, FailedStint};
    ghost use Rattle.lane_changes.specs.Steps.{goes_on, IsUnbegun, course_end, HasPassed};

    /// A lane that waits for its first batch.
    pub fn new() -> Self
        ensures { IsUnbegun result }
    {
        Course {
            next: Next::Waits,
            stints: 0,
            stop: LaneStop::Done,
            opened: 0,
            refused: None,
            weights: 0,
            since: 0,
        }
    }

    /// Whether the lane goes on: it hasn't ended, nor reached its bound.
    pub fn goes_on(&self) -> bool
        ensures { result ≡ goes_on self.now }
    {
        match self.next {
            Next::Works(_) | Next::Waits => self.stints < MAX_STINTS,
            Next::Ends => false,
        }
    }

    /// Adds a work that came to this end.
    pub fn add_work(&mut self, end: LaneEnd)
        requires few { self.old.stints < MAX_STINTS }
        ensures { (batch : Name) (work : Work) → HasPassed self.old
            (WorkStint (record { batch = batch; work = work; end = end })) self.new }
    {
        self.next = behind_stop(end.stop);
        self.stints += 1;
        self.stop = end.stop;
        self.opened = self.opened.saturating_add(end.opened);
        self.refused = first_of(self.refused, start_refused(end.stop));
        self.since = 0;
    }

    /// Adds a wait in which the cell gave this.
    pub fn add_item(&mut self, item: CellNext)
        requires few { self.old.stints < MAX_STINTS }
        requires weights { self.old.weights ≤ self.old.stints }
        ensures { HasPassed self.old (WaitStint item) self.new }
    {
        let weight = item_weight(item);
        self.next = behind_item(item);
        self.stints += 1;
        self.stop = item_stop(item);
        self.weights += weight;
        self.since = since_behind(self.since, weight);
    }

    /// Adds a wait in which the cell failed.
    pub fn add_failure(&mut self)
        requires few { self.old.stints < MAX_STINTS }
        ensures { HasPassed self.old FailedStint self.new }
    {
        self.next = Next::Ends;
        self.stints += 1;
        self.stop = LaneStop::Cell;
        self.since = 0;
    }

    /// The end of the lane.
    pub fn end(&self) -> LaneEnd
        ensures { result ≡ course_end self.now }
    {
        let stop = match self.next {
            Next::Ends => told_stop(self.stop, self.refused, self.weights),
            Next::Works(_) | Next::Waits => LaneStop::Turns,
        };
        LaneEnd {
            opened: self.opened,
            stop,
        }
    }
}
