//! Whether lanes and doors came to an early end.
ghost use Rattle.std.specs.Prelude.{◌≡◌};
ghost use Rattle.std.specs.List.{list_any};
ghost use Rattle.call_endings.specs.Endings.{is_early, is_spent, is_cut, is_full, are_spent, early_status};

use lane_worker::{LaneEnd, LaneStop};
use office_door::{DoorEnd, DoorStop};

/// The status where a lane ended early.
const LANE_EARLY: u8 = 10;

/// The status where a door ended early.
const DOOR_EARLY: u8 = 11;

/// The status where turns were spent.
pub const SPENT: u8 = 12;

// Whether a lane ended early.
fn is_early(end: &LaneEnd) -> bool
    ensures { result ≡ is_early end.now }
{
    match end.stop {
        LaneStop::Cell
        | LaneStop::Gate
        | LaneStop::Bad { .. }
        | LaneStop::Change { .. }
        | LaneStop::Idle { .. }
        | LaneStop::Refused(_) => true,
        LaneStop::Done | LaneStop::DiskFault | LaneStop::NoMemory | LaneStop::Turns => false,
    }
}

// Whether the turns of a lane were spent.
fn is_spent(end: &LaneEnd) -> bool
    ensures { result ≡ is_spent end.now }
{
    end.stop == LaneStop::Turns
}

// Whether the service of a door ended early, or a fault of the link ended a connection.
fn is_cut(end: &DoorEnd) -> bool
    ensures { result ≡ is_cut end.now }
{
    end.stop == DoorStop::Door || end.links > 0
}

// Whether a door served as many connections as may be.
fn is_full(end: &DoorEnd) -> bool
    ensures { result ≡ is_full end.now }
{
    end.stop == DoorStop::Turns
}

// Whether one of some lanes ended early.
fn any_early(ends: &[LaneEnd]) -> bool
    ensures { result ≡ list_any is_early ends.now }
{
    ends.iter().any(is_early)
}

// Whether the service of one of some doors ended early.
fn any_cut(ends: &[DoorEnd]) -> bool
    ensures { result ≡ list_any is_cut ends.now }
{
    ends.iter().any(is_cut)
}

// Whether the turns of one of some lanes were spent.
fn any_spent(ends: &[LaneEnd]) -> bool
    ensures { result ≡ list_any is_spent ends.now }
{
    ends.iter().any(is_spent)
}

// Whether one of some doors served as many connections as may be.
fn any_full(ends: &[DoorEnd]) -> bool
    ensures { result ≡ list_any is_full ends.now }
{
    ends.iter().any(is_full)
}

// Whether the turns of one of some lanes or doors were spent.
fn are_spent(lanes: &[LaneEnd], doors: &[DoorEnd]) -> bool
    ensures { result ≡ are_spent lanes.now doors.now }
{
    any_full(doors) || any_spent(lanes)
}

/// The status of lanes and doors that ended so, where they have one of their own.
pub fn early_status(lanes: &[LaneEnd], doors: &[DoorEnd]) -> Option<u8>
    ensures { result ≡ early_status lanes.now doors.now }
{
    if any_early(lanes) {
        Some(LANE_EARLY)
    } else if any_cut(doors) {
        Some(DOOR_EARLY)
    } else if are_spent(lanes, doors) {
        Some(SPENT)
    } else {
        None
    }
}
