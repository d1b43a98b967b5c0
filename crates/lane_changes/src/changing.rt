ghost use Rattle.std.specs.Prelude.{◌≡◌, ◌+◌, ◌≤◌, true};
ghost use Rattle.book_words.specs.declared.name.Name.{Name as Named};
ghost use Rattle.lane_worker.specs.Works.{site};
ghost use Rattle.lane_changes.specs.declared.types.Next.TheVariants.{Works, Waits};
ghost use Rattle.lane_changes.specs.Changes.{WentAt, BrokeAt, HasChanged};
ghost use Rattle.lane_changes.specs.Steps.{goes_on, IsCourse};

use crate::course::{Course, start_refused};
use crate::notices::ChangeNotices;
use crate::types::Next;
use book_words::{Caller, Name};
use disk_core::Failed;
use lane_worker::{CellNext, Lane, LaneEnd, LaneStop, run_lane};

/// The most works and waits of a changing lane.
pub const MAX_STINTS: u32 = 1_000_000;

// Tells of a start that was refused, if one was.
fn tell_start<N: ChangeNotices>(number: u8, batch: Name, stop: LaneStop, notices: &N) {
    if let Some(refused) = start_refused(stop) {
        notices.start_refused(number, batch, refused);
    }
}

// Tells how many weights came while the lane waited, if any did.
fn tell_weights<N: ChangeNotices>(number: u8, since: u32, notices: &N) {
    if since > 0 {
        notices.weights_without_batch(number, since);
    }
}

// Tells of a weight without a batch, or of the end of those that came before.
fn tell_item<N: ChangeNotices>(number: u8, item: CellNext, since: u32, notices: &N) {
    match item {
        CellNext::Gross(_) => notices.weight_without_batch(number, since.saturating_add(1)),
        _ => tell_weights(number, since, notices),
    }
}

// Works the lane for this batch.
fn work<C: Caller, L: Lane, N: ChangeNotices>(
    caller: &mut C,
    lane: &mut L,
    number: u8,
    batch: Name,
    notices: &N,
    course: &mut Course,
)
    requires goes_on { goes_on course.old ≡ true }
    requires next { course.old.next ≡ Works batch }
    requires weights { course.old.weights ≤ course.old.stints }
    ensures stints { course.new.stints ≡ course.old.stints + 1 }
    ensures weights { course.new.weights ≤ course.new.stints }
    ensures goes { (first : C) (start : L)
        → IsCourse (C.later first caller.old) (WentAt C.Caller) (BrokeAt C.Caller)
        (site C.Caller L.Cell L.Gate first start) (site C.Caller L.Cell L.Gate caller.old lane.old)
        number course.old
        → IsCourse (C.later first caller.new) (WentAt C.Caller) (BrokeAt C.Caller)
        (site C.Caller L.Cell L.Gate first start) (site C.Caller L.Cell L.Gate caller.new lane.new)
        number course.new }
{
    let end = run_lane(caller, lane, number, batch);
    tell_start(number, batch, end.stop, notices);
    course.add_work(end);
}

// Takes the next item of the cell, and leaves the gate shut: no book is asked about a weight that
// comes without a batch.
fn wait<C: Caller, L: Lane, N: ChangeNotices>(
    caller: &C,
    lane: &mut L,
    number: u8,
    notices: &N,
    course: &mut Course,
)
    requires goes_on { goes_on course.old ≡ true }
    requires next { course.old.next ≡ Waits }
    requires weights { course.old.weights ≤ course.old.stints }
    ensures stints { course.new.stints ≡ course.old.stints + 1 }
    ensures weights { course.new.weights ≤ course.new.stints }
    ensures goes { (first : C) (start : L)
        → IsCourse (C.later first caller.now) (WentAt C.Caller) (BrokeAt C.Caller)
        (site C.Caller L.Cell L.Gate first start) (site C.Caller L.Cell L.Gate caller.now lane.old)
        number course.old
        → IsCourse (C.later first caller.now) (WentAt C.Caller) (BrokeAt C.Caller)
        (site C.Caller L.Cell L.Gate first start) (site C.Caller L.Cell L.Gate caller.now lane.new)
        number course.new }
{
    let _ = caller;
    match lane.next() {
        Ok(item) => {
            tell_item(number, item, course.since, notices);
            course.add_item(item);
        }
        Err(Failed) => {
            tell_weights(number, course.since, notices);
            course.add_failure();
        }
    }
}

// Works or waits once more.
fn go_on<C: Caller, L: Lane, N: ChangeNotices>(
    caller: &mut C,
    lane: &mut L,
    number: u8,
    notices: &N,
    course: &mut Course,
)
    requires goes_on { goes_on course.old ≡ true }
    requires weights { course.old.weights ≤ course.old.stints }
    ensures stints { course.new.stints ≡ course.old.stints + 1 }
    ensures weights { course.new.weights ≤ course.new.stints }
    ensures goes { (first : C) (start : L)
        → IsCourse (C.later first caller.old) (WentAt C.Caller) (BrokeAt C.Caller)
        (site C.Caller L.Cell L.Gate first start) (site C.Caller L.Cell L.Gate caller.old lane.old)
        number course.old
        → IsCourse (C.later first caller.new) (WentAt C.Caller) (BrokeAt C.Caller)
        (site C.Caller L.Cell L.Gate first start) (site C.Caller L.Cell L.Gate caller.new lane.new)
        number course.new }
{
    match course.next {
        Next::Works(batch) => work(caller, lane, number, batch, notices, course),
        Next::Waits | Next::Ends => wait(caller, lane, number, notices, course),
    }
}

// Works and waits, until the lane ends or has reached its bound.
fn change_on<C: Caller, L: Lane, N: ChangeNotices>(
    caller: &mut C,
    lane: &mut L,
    number: u8,
    notices: &N,
) -> LaneEnd
    ensures changed { HasChanged (C.later caller.old caller.new) (WentAt C.Caller)
        (BrokeAt C.Caller) (site C.Caller L.Cell L.Gate caller.old lane.old)
        (site C.Caller L.Cell L.Gate caller.new lane.new) number result }
{
    let mut course = Course::new();
    'changing: while course.goes_on() {
        go_on(caller, lane, number, notices, &mut course);
    }
    tell_weights(number, course.since, notices);
    course.end()
}

/// Works a lane for the batches that its cell gives, one after another: the weights behind a batch
/// are weighed for it. The next batch ends a work as the end of the cell does, so that nothing is
/// voided, and the work for it begins. Where the book refuses to start it by 6, 14, 15 or 19, the
/// lane has no batch: it waits for another, and doesn't go back to the one before.
///
/// It begins without a batch, whatever the book says of it. A weight that comes while it has none is
/// counted; nothing is asked about it, and the gate stays shut. It ends as the work of a lane does,
/// and behind `MAX_STINTS` works and waits.
pub fn run_changes<C: Caller, L: Lane, N: ChangeNotices>(
    caller: &mut C,
    lane: &mut L,
    number: u8,
    notices: &N,
) -> LaneEnd
    ensures changed { HasChanged (C.later caller.old caller.new) (WentAt C.Caller)
        (BrokeAt C.Caller) (site C.Caller L.Cell L.Gate caller.old lane.old)
        (site C.Caller L.Cell L.Gate caller.new lane.new) number result }
{
    lane.expect_batches();
    change_on(caller, lane, number, notices)
}
