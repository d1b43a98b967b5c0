ghost use Rattle.std.specs.Prelude.{Some};
ghost use Rattle.book_texts.specs.Appending.{HasRoom, Appended};
ghost use Rattle.batch_reports.specs.Texts.{unsettled_text, use_text, lane_text};

use book_texts::{MAX_NAMED, MAX_NUMBERED, append, append_named, append_numbered};
use book_words::{LaneView, Name};

/// The most bytes of what a lane weighs: a name and a number.
const MAX_USE: usize = MAX_NAMED + MAX_NUMBERED;

/// The most bytes of the line of a lane.
pub const MAX_LANE_TEXT: usize = MAX_NUMBERED + MAX_USE + 1;

/// Appends what a lane does, in a line.
#[tactic(auto, unfolding(crate::specs::Texts::lane_text))]
pub fn push_lane(to: &mut Vec<u8>, view: &LaneView)
    requires { HasRoom to.old MAX_LANE_TEXT }
    ensures { Appended to.old to.new (lane_text view.now) MAX_LANE_TEXT }
{
    append_numbered(to, b"lane ", u32::from(view.lane));
    push_use(to, view);
    append(to, b"\n");
}

// Appends what a lane weighs, or that it is idle.
fn push_use(to: &mut Vec<u8>, view: &LaneView)
    requires { HasRoom to.old MAX_USE }
    ensures { Appended to.old to.new (use_text view.now.batch view.now.unsettled) MAX_USE }
{
    match &view.batch {
        None => append(to, b" idle"),
        Some(batch) => push_running(to, batch, view.unsettled),
    }
}

// Appends the batch that a lane weighs, and its unsettled pack.
fn push_running(to: &mut Vec<u8>, batch: &Name, unsettled: Option<u32>)
    requires { HasRoom to.old MAX_USE }
    ensures { Appended to.old to.new (use_text (Some batch.now) unsettled) MAX_USE }
{
    append_named(to, b" batch ", batch);
    push_unsettled(to, unsettled);
}

// Appends the unsettled pack of a lane, or that it has none.
fn push_unsettled(to: &mut Vec<u8>, unsettled: Option<u32>)
    requires { HasRoom to.old MAX_NUMBERED }
    ensures { Appended to.old to.new (unsettled_text unsettled) MAX_NUMBERED }
{
    match unsettled {
        None => append(to, b" settled"),
        Some(pack) => append_numbered(to, b" unsettled ", pack),
    }
}
