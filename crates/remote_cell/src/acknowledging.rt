ghost use Rattle.remote_cell.specs.WireLines.{acknowledgement};
ghost use Rattle.remote_cell.specs.Told.{port};
ghost use Rattle.remote_cell.specs.Steps.{Sends};

use disk_core::{Door, Partly, write_all};
use itoa::write_digits;

// The text before the number of an item.
const ACK: &[u8] = b"ack ";

// The most bytes of a line: the text, ten digits and an LF.
const MAX_ACK: usize = 15;

// Sends a text to the present connection.
fn send<O: Door>(door: &mut O, text: &[u8]) -> Result<(), Partly>
    ensures { Sends (port O.Source O.connections O.missed door.old) (port O.Source O.connections O.missed door.new)
        text.now result }
{
    write_all(door, text)
}

/// Acknowledges all items up to a number to the present connection, in one write where it takes the
/// line whole.
#[tactic(auto, unfolding(crate::specs::WireLines::acknowledgement))]
pub(crate) fn send_acknowledgement<O: Door>(door: &mut O, taken: u32) -> Result<(), Partly>
    ensures { Sends (port O.Source O.connections O.missed door.old) (port O.Source O.connections O.missed door.new)
        (acknowledgement taken) result }
{
    let mut line = [b'\n'; MAX_ACK];
    let digits = write_digits(u64::from(taken), &mut line, MAX_ACK - 1);
    let begin = digits - ACK.len();
    line[begin..digits].copy_from_slice(ACK);
    send(door, &line[begin..])
}
