ghost use Rattle.std.specs.Prelude.{◌≡◌, ◌≤◌, false, vec_capacity};
ghost use Rattle.office_responses.specs.declared.replies.TheConstants.{REPLY_ROOM};
ghost use Rattle.office_door.specs.declared.limits.TheConstants.{MAX_REQUESTS};
ghost use Rattle.office_door.specs.Doors.{site};
ghost use Rattle.office_door.specs.Steps.{IsVisited};

use crate::buffers::Buffers;
use crate::leaving::Leaving;
use crate::requests::serve_request;
use book_words::Caller;
use disk_core::Door;
use std::alloc::Global;

/// Serves the present connection, which begins, until it is left. Counts its requests, and tells
/// why it is left. At most so many requests come: the response to the last says that it is.
pub(crate) fn serve_connection<C: Caller, O: Door>(
    alloc: Global,
    caller: &mut C,
    door: &mut O,
    buffers: &mut Buffers,
    served: &mut u32,
) -> Leaving
    requires room { REPLY_ROOM ≤ vec_capacity buffers.old.reply }
    requires begins { O.ended door.old ≡ false }
    ensures room { REPLY_ROOM ≤ vec_capacity buffers.new.reply }
    ensures few { served.new ≤ MAX_REQUESTS }
    ensures missed { O.missed door.new ≡ O.missed door.old }
    ensures visited { IsVisited (C.later caller.old caller.new)
        (site C.Caller O.Source O.Door.own caller.old door.old)
        (site C.Caller O.Source O.Door.own caller.new door.new) served.new result }
{
    buffers.held.clear();
    *served = 0;
    'serving: loop {
        if let Some(leaving) = serve_request(alloc, caller, door, buffers, served) {
            return leaving;
        }
    }
}
