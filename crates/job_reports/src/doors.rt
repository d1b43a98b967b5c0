ghost use Rattle.std.specs.Prelude.{◌≡◌, ◌≤◌, length};
ghost use Rattle.hall_units.specs.Printing.{Prints};
ghost use Rattle.batch_reports.specs.Appending.{HasRoom, Appended};
ghost use Rattle.job_reports.specs.Texts.{door_word, door_text};

use crate::append::{MAX_LABEL, MAX_NUMBERED, append, append_numbered};
use hall_units::{NoMemory, make_room};
use office_door::{DoorEnd, DoorStop};

/// No line of a door has more bytes: three labels with their numbers, a blank, a word and an LF.
pub const DOOR_ROOM: usize = 3 * MAX_NUMBERED + 1 + MAX_LABEL + 1;

/// Appends the line of a door whose work came to its end: how many requests it took, how many
/// connections a fault of the link ended, and why no more were served. With room for `DOOR_ROOM`
/// bytes it takes no memory; where memory is refused nothing is appended.
pub fn door_text(door: u8, end: &DoorEnd, to: &mut Vec<u8>) -> Result<(), NoMemory>
    ensures { Prints to.old to.new result (door_text door end.now) DOOR_ROOM }
{
    make_room(to, DOOR_ROOM)?;
    push_door(to, door, end);
    Ok(())
}

// Appends the line of a door.
#[tactic(auto, unfolding(crate::specs::Texts::door_text))]
fn push_door(to: &mut Vec<u8>, door: u8, end: &DoorEnd)
    requires { HasRoom to.old DOOR_ROOM }
    ensures { Appended to.old to.new (door_text door end.now) DOOR_ROOM }
{
    append_numbered(to, b"door ", u32::from(door));
    append_numbered(to, b" served ", end.served);
    append_numbered(to, b" links ", end.links);
    append(to, b" ");
    append(to, door_word(end.stop));
    append(to, b"\n");
}

// The word for a stop.
fn door_word(stop: DoorStop) -> &'static [u8]
    ensures text { result.now ≡ door_word stop }
    ensures short { length result.now ≤ MAX_LABEL }
{
    match stop {
        DoorStop::Done => b"done",
        DoorStop::Door => b"door",
        DoorStop::NoMemory => b"memory",
        DoorStop::Turns => b"turns",
    }
}
