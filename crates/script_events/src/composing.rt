ghost use Rattle.std.specs.Prelude.{◌≡◌, ◌≤◌, vec_capacity};
ghost use Rattle.book_words.specs.Views.{summary};
ghost use Rattle.book_words.specs.Answers.{IsLegal};
ghost use Rattle.batch_reports.specs.Appending.{HasRoom, Appended};
ghost use Rattle.batch_reports.specs.Texts.{outcome_text, summary_text};
ghost use Rattle.script_events.specs.Asking.{IsTold};

use batch_reports::{TEXT_ROOM, answer_text, refusal_text};
use book_words::{Answered, Refused, Reply};
use store_runs::Book;

/// Makes the text of an answer of the book, in place of what was in `text`.
pub fn compose_answer(answer: &Result<Answered, Refused>, text: &mut Vec<u8>)
    requires room { TEXT_ROOM ≤ vec_capacity text.old }
    requires told { IsTold answer.now }
    ensures text { text.new.items ≡ outcome_text answer.now }
    ensures capacity { vec_capacity text.new ≡ vec_capacity text.old }
{
    text.clear();
    match answer {
        Ok(answered) => answer_text(answered, text).unwrap(),
        Err(refused) => refusal_text(refused, text).unwrap(),
    }
}

/// Makes the text of the summary, in place of what was in `text`.
pub fn compose_summary(book: &Book, text: &mut Vec<u8>)
    requires room { TEXT_ROOM ≤ vec_capacity text.old }
    requires legal { IsLegal book.now.entries }
    ensures text { text.new.items ≡ summary_text (summary book.now.entries) }
    ensures capacity { vec_capacity text.new ≡ vec_capacity text.old }
{
    text.clear();
    append_summary(book, text);
}

/// Appends the text of the summary.
pub fn append_summary(book: &Book, text: &mut Vec<u8>)
    requires room { HasRoom text.old TEXT_ROOM }
    requires legal { IsLegal book.now.entries }
    ensures { Appended text.old text.new (summary_text (summary book.now.entries)) TEXT_ROOM }
{
    let answered = Answered {
        at: book.len(),
        reply: Reply::SummaryIs(book.summary()),
    };
    answer_text(&answered, text).unwrap();
}
