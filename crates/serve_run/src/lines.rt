//! What is said behind the jobs.
ghost use Rattle.std.specs.Prelude.{◌≡◌, ◌+◌, ◌*◌, ◌≤◌, ◌++◌, [], IfOk, length, vec_capacity};
ghost use Rattle.batch_reports.specs.Appending.{HasRoom, Appended};
ghost use Rattle.batch_reports.specs.Texts.{summary_text};
ghost use Rattle.book_words.specs.Answers.{IsLegal};
ghost use Rattle.book_words.specs.Views.{summary};
ghost use Rattle.serve_run.specs.Jobs.{job_text, job_lines};
ghost use Rattle.serve_run.specs.Serving.{serve_text};

use batch_reports::TEXT_ROOM;
use book_core::Book;
use job_reports::{DOOR_ROOM, LANE_ROOM, door_text, lane_text};
use script_events::append_summary;
use session_jobs::{MAX_JOBS, Work};
use std::alloc::{AllocError, Global};

/// No line of a job has more bytes.
const LINE_ROOM: usize = LANE_ROOM + DOOR_ROOM;

/// The most bytes that are said behind the jobs.
pub const SAY_ROOM: usize = MAX_JOBS * LINE_ROOM + TEXT_ROOM;

/// Room for what is said behind the jobs.
pub fn take_text(alloc: Global) -> Result<Vec<u8>, AllocError>
    ensures empty { IfOk result (λ text. text.items ≡ []) }
    ensures room { IfOk result (λ text. SAY_ROOM ≤ vec_capacity text) }
{
    let text = Vec::with_capacity(alloc, SAY_ROOM)?;
    Ok(text)
}

// Appends the line of a job that came to its end.
fn push_line<L, O>(work: &Work<L, O>, text: &mut Vec<u8>)
    requires room { HasRoom text.old LINE_ROOM }
    ensures { Appended text.old text.new (job_text work.now) LINE_ROOM }
{
    match work {
        Work::Lane(job) => {
            if let Some(end) = &job.end {
                lane_text(job.number, end, text).unwrap();
            }
        }
        Work::Door(job) => {
            if let Some(end) = &job.end {
                door_text(job.number, end, text).unwrap();
            }
        }
    }
}

// Appends the lines of jobs, in order.
fn push_lines<L, O>(jobs: &[Work<L, O>], text: &mut Vec<u8>)
    requires few { length jobs.now ≤ MAX_JOBS }
    requires room { HasRoom text.old SAY_ROOM }
    ensures lines { text.new.items ≡ text.old.items ++ job_lines jobs.now }
    ensures left { HasRoom text.new TEXT_ROOM }
{
    for work in jobs {
        push_line(work, text);
    }
}

/// Makes what is said behind the jobs: their lines, and the summary of the book.
pub fn compose<L, O>(jobs: &[Work<L, O>], book: &Book, text: &mut Vec<u8>)
    requires few { length jobs.now ≤ MAX_JOBS }
    requires legal { IsLegal book.now.entries }
    requires empty { text.old.items ≡ [] }
    requires room { SAY_ROOM ≤ vec_capacity text.old }
    ensures text { text.new.items ≡ serve_text jobs.now book.now.entries }
{
    push_lines(jobs, text);
    append_summary(book, text);
}
