ghost use Rattle.std.specs.Prelude.{◌≤◌, length};
ghost use Rattle.book_words.specs.Soundness.{IsAnswer, IsRefusal};
ghost use Rattle.batch_reports.specs.Appending.{HasRoom, Appended};
ghost use Rattle.batch_reports.specs.Texts.{reply_text, verdict_text};
ghost use Rattle.office_responses.specs.Responses.{bad_body, done_body, closed_body, answer_body, refusal_body, reply_body, IsBookAnswer};

use batch_reports::{TEXT_ROOM, answer_text, append, append_count, push_kept, push_verdict};
use book_words::{Answered, AskError, Refused, Reply, Verdict};

/// The most bytes of the word for a fault.
pub const MAX_FAULT: usize = 8;

/// The bytes round that word.
const FAULT_MEMBER: usize = 10;

/// The most bytes of the body of a fault.
pub const MAX_BAD_BODY: usize = MAX_FAULT + FAULT_MEMBER;

/// Appends the body of the response to what the book answers.
pub fn push_reply(to: &mut Vec<u8>, answer: &Result<Answered, AskError>)
    requires room { HasRoom to.old TEXT_ROOM }
    requires given { IsBookAnswer answer.now }
    ensures { Appended to.old to.new (reply_body answer.now) TEXT_ROOM }
{
    match answer {
        Ok(answered) => push_answer(to, answered),
        Err(AskError::Refused(refused)) => push_refusal(to, refused),
        Err(AskError::DiskFault) => push_bad(to, b"disk"),
        Err(AskError::NoMemory) => push_bad(to, b"memory"),
    }
}

/// Appends the body of the response to a fault, by the word for it.
pub fn push_bad(to: &mut Vec<u8>, word: &[u8])
    requires room { HasRoom to.old MAX_BAD_BODY }
    requires short { length word.now ≤ MAX_FAULT }
    ensures { Appended to.old to.new (bad_body word.now) MAX_BAD_BODY }
{
    append(to, b"{\"bad\":\"");
    append(to, word);
    append(to, b"\"}");
}

// Appends the body of the response to an answer.
fn push_answer(to: &mut Vec<u8>, answered: &Answered)
    requires room { HasRoom to.old TEXT_ROOM }
    requires given { IsAnswer answered.now }
    ensures { Appended to.old to.new (answer_body answered.now.reply) TEXT_ROOM }
{
    match &answered.reply {
        Reply::Done { row } => push_done(to, *row),
        Reply::Closed { row, verdict } => push_closed(to, *row, verdict),
        _ => push_text(to, answered),
    }
}

// Appends the text of an answer.
fn push_text(to: &mut Vec<u8>, answered: &Answered)
    requires room { HasRoom to.old TEXT_ROOM }
    requires given { IsAnswer answered.now }
    ensures { Appended to.old to.new (reply_text answered.now.reply) TEXT_ROOM }
{
    answer_text(answered, to).unwrap();
}

// Appends the row of an accepted act.
fn push_done(to: &mut Vec<u8>, row: u32)
    requires { HasRoom to.old TEXT_ROOM }
    ensures { Appended to.old to.new (done_body row) TEXT_ROOM }
{
    append(to, b"{\"row\":");
    append_count(to, row);
    append(to, b"}");
}

// Appends the row of an accepted closing, and the verdict.
fn push_closed(to: &mut Vec<u8>, row: u32, verdict: &Verdict)
    requires { HasRoom to.old TEXT_ROOM }
    ensures { Appended to.old to.new (closed_body row (verdict_text verdict.now)) TEXT_ROOM }
{
    append(to, b"{\"row\":");
    append_count(to, row);
    append(to, b",\"verdict\":\"");
    push_verdict(to, verdict);
    append(to, b"\"}");
}

// Appends the length of the list, what a refusal keeps, its name and its number.
#[tactic(auto, using(book_laws::proofs::RangeLaws::refusal_told_in_range), unfolding(crate::specs::Responses::refusal_body))]
fn push_refusal(to: &mut Vec<u8>, refused: &Refused)
    requires room { HasRoom to.old TEXT_ROOM }
    requires given { IsRefusal refused.now }
    ensures { Appended to.old to.new (refusal_body refused.now) TEXT_ROOM }
{
    append(to, b"{\"at\":");
    append_count(to, refused.at);
    append(to, b",\"kept\":\"");
    push_kept(to, b"", &refused.refusal);
    append(to, b"\",\"name\":\"");
    append(to, refused.refusal.name().as_bytes());
    append(to, b"\",\"refused\":");
    append_count(to, u32::from(refused.refusal.number()));
    append(to, b"}");
}
