ghost use Rattle.book_words.specs.Ranges.{IsSummaryInRange};
ghost use Rattle.book_texts.specs.Appending.{HasRoom, Appended};
ghost use Rattle.batch_reports.specs.Texts.{batches_line, summary_text};

use crate::tallies::{MAX_TALLIES, push_tallies};
use book_texts::{MAX_NUMBERED, append, append_numbered};
use book_words::SummaryView;

/// The most bytes of the line of the batches: four labels and numbers, and the LF.
const MAX_BATCHES: usize = 4 * MAX_NUMBERED + 1;

/// The most bytes of a summary: the line of the rows, five of tallies and one of batches.
pub const MAX_SUMMARY: usize = MAX_NUMBERED + 1 + MAX_TALLIES + MAX_BATCHES;

/// Appends the balance of the whole hall, in seven lines.
pub fn push_summary(to: &mut Vec<u8>, view: &SummaryView)
    requires room { HasRoom to.old MAX_SUMMARY }
    requires range { IsSummaryInRange view.now }
    ensures { Appended to.old to.new (summary_text view.now) MAX_SUMMARY }
{
    append_numbered(to, b"rows ", view.rows);
    append(to, b"\n");
    push_tallies(
        to,
        &view.readings,
        &view.passed,
        &view.rejected,
        &view.sampled,
        &view.voided,
    );
    push_batches(to, view);
}

// Appends a line: how many batches are in each state.
fn push_batches(to: &mut Vec<u8>, view: &SummaryView)
    requires { HasRoom to.old MAX_BATCHES }
    ensures { Appended to.old to.new (batches_line view.now) MAX_BATCHES }
{
    append_numbered(to, b"batches running ", view.running);
    append_numbered(to, b" ended ", view.ended);
    append_numbered(to, b" drawn ", view.drawn);
    append_numbered(to, b" closed ", view.closed);
    append(to, b"\n");
}
