ghost use Rattle.std.specs.Prelude.{◌≡◌};
ghost use Rattle.office_door.specs.Doors.{port};
ghost use Rattle.office_door.specs.Steps.{Sends};

use disk_core::{Door, Partly, write_all};

/// Sends a response to the present connection of a door.
pub(crate) fn send<O: Door>(door: &mut O, text: &[u8]) -> Result<(), Partly>
    ensures sends { Sends (port O.Source O.Door.own door.old) (port O.Source O.Door.own door.new)
        text.now result }
    ensures missed { O.missed door.new ≡ O.missed door.old }
{
    write_all(door, text)
}
