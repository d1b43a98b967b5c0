ghost use Rattle.hall_units.specs.Printing.{Prints};
ghost use Rattle.batch_reports.specs.Appending.{HasRoom, Appended};
ghost use Rattle.job_reports.specs.Texts.{refused_text, stop_text, lane_text};

use crate::append::{MAX_NUMBERED, append, append_numbered};
use book_words::Refused;
use hall_units::{NoMemory, make_room};
use lane_worker::{LaneEnd, LaneStop};

/// The most bytes of the words for a stop: those for a refusal are the longest.
const MAX_STOP: usize = 2 * MAX_NUMBERED;

/// No line of a lane has more bytes: two labels with their numbers, a blank, a stop and an LF.
pub const LANE_ROOM: usize = 2 * MAX_NUMBERED + 1 + MAX_STOP + 1;

/// Appends the line of a lane whose work came to its end: how often its gate opened, and why no
/// more was weighed. With room for `LANE_ROOM` bytes it takes no memory; where memory is refused
/// nothing is appended.
pub fn lane_text(lane: u8, end: &LaneEnd, to: &mut Vec<u8>) -> Result<(), NoMemory>
    ensures { Prints to.old to.new result (lane_text lane end.now) LANE_ROOM }
{
    make_room(to, LANE_ROOM)?;
    push_lane(to, lane, end);
    Ok(())
}

// Appends the line of a lane.
#[tactic(auto, unfolding(crate::specs::Texts::lane_text))]
fn push_lane(to: &mut Vec<u8>, lane: u8, end: &LaneEnd)
    requires { HasRoom to.old LANE_ROOM }
    ensures { Appended to.old to.new (lane_text lane end.now) LANE_ROOM }
{
    append_numbered(to, b"lane ", u32::from(lane));
    append_numbered(to, b" opened ", end.opened);
    append(to, b" ");
    push_stop(to, &end.stop);
    append(to, b"\n");
}

// Appends the words for a stop.
fn push_stop(to: &mut Vec<u8>, stop: &LaneStop)
    requires { HasRoom to.old MAX_STOP }
    ensures { Appended to.old to.new (stop_text stop.now) MAX_STOP }
{
    match stop {
        LaneStop::Done => append(to, b"done"),
        LaneStop::Cell => append(to, b"cell"),
        LaneStop::Gate => append(to, b"gate"),
        LaneStop::Bad { line } | LaneStop::Change { line, .. } => {
            append_numbered(to, b"bad ", *line)
        }
        LaneStop::Idle { weights } => append_numbered(to, b"idle ", *weights),
        LaneStop::Refused(refused) => push_refused(to, refused),
        LaneStop::DiskFault => append(to, b"disk"),
        LaneStop::NoMemory => append(to, b"memory"),
        LaneStop::Turns => append(to, b"turns"),
    }
}

// Appends the number of a refusal and the length of the list.
fn push_refused(to: &mut Vec<u8>, refused: &Refused)
    requires { HasRoom to.old MAX_STOP }
    ensures { Appended to.old to.new (refused_text refused.now) MAX_STOP }
{
    append_numbered(to, b"refused ", u32::from(refused.refusal.number()));
    append_numbered(to, b" at ", refused.at);
}
