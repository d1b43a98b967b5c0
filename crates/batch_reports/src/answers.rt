ghost use Rattle.book_words.specs.Ranges.{IsReplyInRange};
ghost use Rattle.book_words.specs.Soundness.{IsAnswer};
ghost use Rattle.hall_units.specs.Printing.{Prints};
ghost use Rattle.book_texts.specs.Appending.{HasRoom, Appended};
ghost use Rattle.batch_reports.specs.Texts.{answer_text, reply_text, done_line, judged_line, closed_line};

use crate::lanes::push_lane;
use crate::packs::{push_pack, push_packs};
use crate::pages::{push_lines, push_shipment};
use crate::samples::push_sample;
use crate::sheets::push_sheet;
use crate::summaries::push_summary;
use book_texts::{append, append_count, append_word, push_verdict, signal_words};
use book_words::{Answered, Reply, Verdict};
use hall_units::{NoMemory, make_room};
use pack_judge::Signal;

/// No text of an answer or of a refusal has more bytes. The longest is a page of 128 lines: the
/// room of each is 256 bytes, and of a pack 227. That of the samples, 160 packs in 20 digits and a blank each and a
/// name of 32 bytes, has 3 413 bytes, and a page as a shipment 12 304.
pub const TEXT_ROOM: usize = 32_768;

/// Appends the text of an answer. With room for `TEXT_ROOM` bytes it takes no memory; where memory
/// is refused nothing is appended.
pub fn answer_text(answered: &Answered, to: &mut Vec<u8>) -> Result<(), NoMemory>
    requires { IsAnswer answered.now }
    ensures { Prints to.old to.new result (answer_text answered.now) TEXT_ROOM }
{
    make_room(to, TEXT_ROOM)?;
    push_reply(to, &answered.reply);
    Ok(())
}

// Appends the reply to an ask that isn't refused.
fn push_reply(to: &mut Vec<u8>, reply: &Reply)
    requires room { HasRoom to.old TEXT_ROOM }
    requires range { IsReplyInRange reply.now }
    ensures { Appended to.old to.new (reply_text reply.now) TEXT_ROOM }
{
    match reply {
        Reply::Done { row } => push_done(to, *row),
        Reply::Judged { row, signal } => push_judged(to, *row, *signal),
        Reply::Closed { row, verdict } => push_closed(to, *row, verdict),
        Reply::SheetIs(sheet) => push_sheet(to, sheet),
        Reply::PackIs(view) => push_pack(to, view),
        Reply::LaneIs(view) => push_lane(to, view),
        Reply::SampleIs(view) => push_sample(to, view),
        Reply::SummaryIs(view) => push_summary(to, view),
        Reply::RowsAre(view) => push_lines(to, view.acts.as_slice()),
        Reply::ShipmentIs(view) => push_shipment(to, view),
        Reply::PacksAre(view) => push_packs(to, view.packs.as_slice()),
    }
}

// Appends the line of an accepted act that is neither a weighing nor a closing.
fn push_done(to: &mut Vec<u8>, row: u32)
    requires { HasRoom to.old TEXT_ROOM }
    ensures { Appended to.old to.new (done_line row) TEXT_ROOM }
{
    append_count(to, row);
    append(to, b" ok\n");
}

// Appends the line of an accepted weighing.
fn push_judged(to: &mut Vec<u8>, row: u32, signal: Signal)
    requires { HasRoom to.old TEXT_ROOM }
    ensures { Appended to.old to.new (judged_line row signal) TEXT_ROOM }
{
    append_count(to, row);
    append_word(to, signal_words(signal));
    append(to, b"\n");
}

// Appends the line of an accepted closing.
fn push_closed(to: &mut Vec<u8>, row: u32, verdict: &Verdict)
    requires { HasRoom to.old TEXT_ROOM }
    ensures { Appended to.old to.new (closed_line row verdict.now) TEXT_ROOM }
{
    append_count(to, row);
    append(to, b" ");
    push_verdict(to, verdict);
    append(to, b"\n");
}
