ghost use Rattle.std.specs.Prelude.{◌≡◌, [], false, true, None, IfSome, Ok};
ghost use Rattle.remote_cell.specs.declared.reading.LineEnd.TheVariants.{Cut};
ghost use Rattle.remote_cell.specs.Told.{port, site, IsSound};
ghost use Rattle.remote_cell.specs.Heard.{HasHeard};
ghost use Rattle.remote_cell.specs.Steps.{ReadsLine, Acknowledged, is_answered, AnsweredIf, IsReady, TurnsTo};

use crate::acknowledging::send_acknowledgement;
use crate::hearing::Hearing;
use crate::held::Held;
use crate::reading::{LineEnd, read_line};
use disk_core::{Door, Failed};
use lane_worker::CellNext;

/// How many whole lines and connections a cell looks at in one call.
pub const MAX_TURNS: u32 = 1_000_000;

// Writes the acknowledgement that is owed, if one is. Where that fails, the connection is to be
// left.
fn acknowledge<O: Door>(door: &mut O, hearing: &mut Hearing)
    requires { IsSound (port O.Source O.connections O.missed door.old) hearing.old }
    ensures { Acknowledged (site (port O.Source O.connections O.missed door.old) hearing.old)
        (site (port O.Source O.connections O.missed door.new) hearing.new) }
{
    if !hearing.owes {
        return;
    }
    hearing.owes = false;
    hearing.connected = send_acknowledgement(door, hearing.receiver.taken()).is_ok();
}

// Whether what was heard is acknowledged at once: that of a weight or of a batch waits until the
// next is asked for, and what is bad has none.
fn is_answered(item: Option<CellNext>) -> bool
    ensures { result ≡ is_answered item }
{
    match item {
        None | Some(CellNext::End) => true,
        Some(_) => false,
    }
}

// Acknowledges what was heard, where that is to be done at once.
fn answer<O: Door>(door: &mut O, hearing: &mut Hearing, item: Option<CellNext>)
    requires { IsSound (port O.Source O.connections O.missed door.old) hearing.old }
    ensures { AnsweredIf (is_answered item)
        (site (port O.Source O.connections O.missed door.old) hearing.old)
        (site (port O.Source O.connections O.missed door.new) hearing.new) }
{
    if is_answered(item) {
        acknowledge(door, hearing);
    }
}

// Reads the next line of the connection that is present; where none is, the line is cut.
fn next_line<O: Door>(door: &mut O, hearing: &Hearing, line: &mut Held) -> LineEnd
    requires sound { IsSound (port O.Source O.connections O.missed door.old) hearing.now }
    requires empty { line.old ≡ [] }
    ensures waits { hearing.now.connected ≡ false
        → (result ≡ Cut) × (door.new ≡ door.old) }
    ensures reads { hearing.now.connected ≡ true → ReadsLine (port O.Source O.connections O.missed door.old)
        (port O.Source O.connections O.missed door.new) line.new result }
{
    if !hearing.connected {
        return LineEnd::Cut;
    }
    read_line(door, line)
}

// Leaves the connection and admits the next.
fn admit<O: Door>(door: &mut O, hearing: &mut Hearing) -> Result<Option<CellNext>, Failed>
    requires ready { IsReady (site (port O.Source O.connections O.missed door.old) hearing.old) }
    requires left { hearing.old.connected ≡ false }
    ensures { TurnsTo (site (port O.Source O.connections O.missed door.old) hearing.old)
        (site (port O.Source O.connections O.missed door.new) hearing.new) result }
{
    match door.next() {
        Ok(true) => {
            hearing.connected = true;
            Ok(None)
        }
        Ok(false) => Ok(Some(hearing.spoil())),
        Err(Failed) => Err(Failed),
    }
}

// Reads a whole line and answers it, or else admits the next connection. Tells what ends the call,
// if this does.
fn turn<O: Door>(door: &mut O, hearing: &mut Hearing) -> Result<Option<CellNext>, Failed>
    requires { IsReady (site (port O.Source O.connections O.missed door.old) hearing.old) }
    ensures { TurnsTo (site (port O.Source O.connections O.missed door.old) hearing.old)
        (site (port O.Source O.connections O.missed door.new) hearing.new) result }
{
    let mut line = Held::new();
    match next_line(door, hearing, &mut line) {
        LineEnd::Whole => {
            let item = hearing.hear(line.bytes());
            answer(door, hearing, item);
            Ok(item)
        }
        LineEnd::TooLong => Ok(Some(hearing.spoil())),
        LineEnd::Cut => {
            hearing.connected = false;
            admit(door, hearing)
        }
    }
}

/// The next item of a scale, over the connections of a door.
pub(crate) fn next_item<O: Door>(door: &mut O, hearing: &mut Hearing) -> Result<CellNext, Failed>
    requires { IsSound (port O.Source O.connections O.missed door.old) hearing.old }
    ensures sound { IsSound (port O.Source O.connections O.missed door.new) hearing.new }
    ensures over { IfSome hearing.old.over (λ item. (result ≡ Ok item)
        × (door.new ≡ door.old) × (hearing.new ≡ hearing.old)) }
    ensures heard { hearing.old.over ≡ None
        → HasHeard (site (port O.Source O.connections O.missed door.old) hearing.old)
        (site (port O.Source O.connections O.missed door.new) hearing.new) result }
{
    if let Some(item) = hearing.over {
        return Ok(item);
    }
    acknowledge(door, hearing);
    for _turn in 0..MAX_TURNS {
        if let Some(item) = turn(door, hearing)? {
            return Ok(item);
        }
    }
    Ok(CellNext::Spent)
}
