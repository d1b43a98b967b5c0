ghost use Rattle.std.specs.Prelude.{◌≡◌, ◌+◌, ◌<◌, ◌≤◌, ◌||◌, ◌==◌, IfNone, vec_capacity};
ghost use Rattle.office_wire.specs.declared.types.Frame.TheVariants.{Whole};
ghost use Rattle.office_responses.specs.declared.replies.TheConstants.{REPLY_ROOM};
ghost use Rattle.office_wire.specs.Frames.{TellsFrame};
ghost use Rattle.office_door.specs.declared.limits.TheConstants.{MAX_REQUESTS};
ghost use Rattle.office_door.specs.Doors.{site};
ghost use Rattle.office_door.specs.Steps.{IsServing, StepsTo};

use crate::buffers::Buffers;
use crate::finding::next_request;
use crate::leaving::{Leaving, left_behind};
use crate::limits::MAX_REQUESTS;
use crate::responding::respond;
use crate::sending::send;
use book_words::Caller;
use disk_core::{Door, Failed};
use office_wire::Framed;
use std::alloc::Global;

// Whether the response to a request of this number ends the connection.
fn is_last(framed: &Framed, number: u32) -> bool
    ensures { result ≡ (framed.now.last || number == MAX_REQUESTS) }
{
    framed.last || number == MAX_REQUESTS
}

// Answers a request that is held, and writes the response at once.
fn serve_held<C: Caller, O: Door>(
    caller: &mut C,
    door: &mut O,
    buffers: &mut Buffers,
    framed: &Framed,
    served: &mut u32,
) -> Option<Leaving>
    requires room { REPLY_ROOM ≤ vec_capacity buffers.old.reply }
    requires known { buffers.old.held.ended ≡ O.ended door.old }
    requires few { served.old < MAX_REQUESTS }
    requires whole { TellsFrame buffers.old.held.bytes buffers.old.held.ended (Whole framed.now) }
    ensures room { REPLY_ROOM ≤ vec_capacity buffers.new.reply }
    ensures known { buffers.new.held.ended ≡ O.ended door.new }
    ensures missed { O.missed door.new ≡ O.missed door.old }
    ensures more { served.new ≡ served.old + 1 }
    ensures few { IfNone result (served.new < MAX_REQUESTS) }
    ensures goes { (first : C) (start : O)
        → IsServing (C.later first caller.old) (site C.Caller O.Source O.Door.own first start)
        (site C.Caller O.Source O.Door.own caller.old door.old) buffers.old.held.bytes served.old
        → StepsTo (C.later first caller.new) (site C.Caller O.Source O.Door.own first start)
        (site C.Caller O.Source O.Door.own caller.new door.new) buffers.new.held.bytes served.new
        result }
{
    *served += 1;
    let last = is_last(framed, *served);
    buffers.held.take(framed.taken);
    respond(caller, &framed.what, last, &mut buffers.reply);
    left_behind(last, &send(door, &buffers.reply))
}

/// Serves the next request of the present connection, if there is one: reads it, answers it, and
/// writes the response. Tells why the connection is left, if it is.
pub(crate) fn serve_request<C: Caller, O: Door>(
    alloc: Global,
    caller: &mut C,
    door: &mut O,
    buffers: &mut Buffers,
    served: &mut u32,
) -> Option<Leaving>
    requires room { REPLY_ROOM ≤ vec_capacity buffers.old.reply }
    requires known { buffers.old.held.ended ≡ O.ended door.old }
    requires few { served.old < MAX_REQUESTS }
    ensures room { REPLY_ROOM ≤ vec_capacity buffers.new.reply }
    ensures known { buffers.new.held.ended ≡ O.ended door.new }
    ensures missed { O.missed door.new ≡ O.missed door.old }
    ensures few { served.new ≤ MAX_REQUESTS }
    ensures more { IfNone result ((served.old < served.new) × (served.new < MAX_REQUESTS)) }
    ensures goes { (first : C) (start : O)
        → IsServing (C.later first caller.old) (site C.Caller O.Source O.Door.own first start)
        (site C.Caller O.Source O.Door.own caller.old door.old) buffers.old.held.bytes served.old
        → StepsTo (C.later first caller.new) (site C.Caller O.Source O.Door.own first start)
        (site C.Caller O.Source O.Door.own caller.new door.new) buffers.new.held.bytes served.new
        result }
{
    match next_request(&buffers.routes, alloc, door, &mut buffers.held) {
        Ok(Some(framed)) => serve_held(caller, door, buffers, &framed, served),
        Ok(None) => Some(Leaving::End),
        Err(Failed) => Some(Leaving::ReadFailed),
    }
}
