ghost use Rattle.std.specs.Prelude.{◌≡◌, ℕ, List};
ghost use Rattle.device_facts.specs.Count.{CountsFault};
ghost use Rattle.office_door.specs.Exchanges.{Exchange};
ghost use Rattle.office_door.specs.Doors.{Port, port};
ghost use Rattle.office_door.specs.Steps.{IsHeard, IsFound};

use crate::held::Held;
use disk_core::{Door, Failed};
use office_wire::{Frame, Framed, Routes};
use std::alloc::Global;

/// The next request of the present connection: it reads until one is whole. `None` where none
/// begins before the end.
pub(crate) fn next_request<O: Door>(
    routes: &Routes,
    alloc: Global,
    door: &mut O,
    held: &mut Held,
) -> Result<Option<Framed>, Failed>
    requires known { held.old.ended ≡ O.ended door.old }
    ensures known { held.new.ended ≡ O.ended door.new }
    ensures found { IsFound held.new.bytes held.new.ended result }
    ensures heard { (start : Port) (exchanges : List Exchange) (written : List ℕ)
        → IsHeard start (port O.Source O.Door.own door.old) exchanges written held.old.bytes
        → IsHeard start (port O.Source O.Door.own door.new) exchanges written held.new.bytes }
    ensures cause { CountsFault (O.Source.faults door.old) (O.Source.faults door.new) result }
    ensures missed { O.missed door.new ≡ O.missed door.old }
{
    'reading: loop {
        match held.frame(routes, alloc) {
            Frame::Whole(framed) => return Ok(Some(framed)),
            Frame::Nothing => return Ok(None),
            Frame::More => held.read_from(door)?,
        }
    }
}
