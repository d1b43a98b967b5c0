ghost use Rattle.std.specs.Prelude.{◌≡◌, ◌+◌, ◌<◌, ◌≤◌, ℕ, IfSome, vec_capacity};
ghost use Rattle.office_responses.specs.declared.replies.TheConstants.{REPLY_ROOM};
ghost use Rattle.office_door.specs.declared.limits.TheConstants.{MAX_REQUESTS, MAX_CONNECTIONS};
ghost use Rattle.office_door.specs.declared.ending.DoorStop.TheVariants as stop;
ghost use Rattle.office_door.specs.Doors.{site, ServesDoor};
ghost use Rattle.office_door.specs.Steps.{IsOpen, TurnsTo, HasRoomFor};

use crate::buffers::{Buffers, take_room};
use crate::connections::serve_connection;
use crate::ending::{DoorEnd, DoorStop};
use crate::leaving::links_of;
use crate::limits::MAX_CONNECTIONS;
use crate::tally::{Tally, end_of};
use book_words::Caller;
use disk_core::{Door, Failed};
use std::alloc::{AllocError, Global};

// Admits the next connection and serves it. Tells why the door stops, if it does.
fn serve_next<C: Caller, O: Door>(
    alloc: Global,
    caller: &mut C,
    door: &mut O,
    buffers: &mut Buffers,
    tally: &mut Tally,
) -> Option<DoorStop>
    requires room { REPLY_ROOM ≤ vec_capacity buffers.old.reply }
    requires few { HasRoomFor tally.old }
    ensures room { REPLY_ROOM ≤ vec_capacity buffers.new.reply }
    ensures served { tally.new.served ≤ tally.old.served + MAX_REQUESTS }
    ensures links { tally.new.links ≤ tally.old.links + 1 }
    ensures began { IfSome result (λ why. why ≡ stop.NoMemory → ⊥) }
    ensures turns { (first : C) (start : O) (turns : ℕ) → turns < MAX_CONNECTIONS
        → IsOpen (C.later first caller.old) (site C.Caller O.Source O.Door.own first start)
        (site C.Caller O.Source O.Door.own caller.old door.old) turns tally.old
        → TurnsTo (C.later first caller.new) (site C.Caller O.Source O.Door.own first start)
        (site C.Caller O.Source O.Door.own caller.new door.new) turns tally.new result }
{
    match door.next() {
        Ok(true) => {
            let mut served = 0;
            let leaving = serve_connection(alloc, caller, door, buffers, &mut served);
            tally.served += served;
            tally.links += links_of(leaving);
            None
        }
        Ok(false) => Some(DoorStop::Done),
        Err(Failed) => Some(DoorStop::Door),
    }
}

// Serves the connections of a door, one after another, with room to read and to respond.
fn serve_all<C: Caller, O: Door>(
    alloc: Global,
    caller: &mut C,
    door: &mut O,
    buffers: &mut Buffers,
) -> DoorEnd
    requires { REPLY_ROOM ≤ vec_capacity buffers.old.reply }
    ensures serves { ServesDoor (C.later caller.old caller.new)
        (site C.Caller O.Source O.Door.own caller.old door.old)
        (site C.Caller O.Source O.Door.own caller.new door.new) result }
    ensures began { result.stop ≡ stop.NoMemory → ⊥ }
{
    let mut tally = Tally {
        served: 0,
        links: 0,
    };
    for _turn in 0..MAX_CONNECTIONS {
        if let Some(stop) = serve_next(alloc, caller, door, buffers, &mut tally) {
            return end_of(&tally, stop);
        }
    }
    end_of(&tally, DoorStop::Turns)
}

/// Serves the connections of a door, one after another. The requests of each are answered in order,
/// at most 1 000 of them, each with one write; a connection is left at its end, behind a response
/// that says so, or where its link fails, which ends no other. A request whose form is at fault, or
/// for which there is no memory, is asked of nobody.
///
/// It stops where no connection waits any more, where the next can't be admitted, and after 1 000
/// 000 connections. Its room, for a request and for a response, is taken before the first call on
/// the door; where it isn't to be had, nothing is done.
pub fn serve_door<C: Caller, O: Door>(alloc: Global, caller: &mut C, door: &mut O) -> DoorEnd
    ensures serves { ServesDoor (C.later caller.old caller.new)
        (site C.Caller O.Source O.Door.own caller.old door.old)
        (site C.Caller O.Source O.Door.own caller.new door.new) result }
    ensures untouched { result.stop ≡ stop.NoMemory
        → (caller.new ≡ caller.old) × (door.new ≡ door.old) }
{
    match take_room(alloc) {
        Ok(mut buffers) => serve_all(alloc, caller, door, &mut buffers),
        Err(AllocError) => DoorEnd {
            served: 0,
            links: 0,
            stop: DoorStop::NoMemory,
        },
    }
}
