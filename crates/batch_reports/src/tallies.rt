ghost use Rattle.std.specs.Prelude.{◌≤◌, length};
ghost use Rattle.book_words.specs.Ranges.{IsGrossInRange};
ghost use Rattle.book_texts.specs.Appending.{HasRoom, Appended};
ghost use Rattle.batch_reports.specs.Texts.{tally_line, tally_lines};

use book_texts::{MAX_LABEL, MAX_NUMBERED, MAX_WEIGHED, append, append_numbered, append_weighed};
use pack_judge::Tally;

/// The most bytes of the line of a tally: a label and a number, a label and a mass, and the LF.
const MAX_TALLY: usize = MAX_NUMBERED + MAX_WEIGHED + 1;

/// The most bytes of the lines of all tallies.
pub const MAX_TALLIES: usize = 5 * MAX_TALLY;

/// Appends the lines of all readings and of the four piles.
pub fn push_tallies(
    to: &mut Vec<u8>,
    readings: &Tally,
    passed: &Tally,
    rejected: &Tally,
    sampled: &Tally,
    voided: &Tally,
)
    requires room { HasRoom to.old MAX_TALLIES }
    requires readings { IsGrossInRange readings.now }
    requires passed { IsGrossInRange passed.now }
    requires rejected { IsGrossInRange rejected.now }
    requires sampled { IsGrossInRange sampled.now }
    requires voided { IsGrossInRange voided.now }
    ensures { Appended to.old to.new
        (tally_lines readings.now passed.now rejected.now sampled.now voided.now) MAX_TALLIES }
{
    push_tally(to, b"readings ", readings);
    push_tally(to, b"passed ", passed);
    push_tally(to, b"rejected ", rejected);
    push_tally(to, b"sampled ", sampled);
    push_tally(to, b"voided ", voided);
}

// Appends a line: how many readings there are, and the sum of their grosses in grams.
fn push_tally(to: &mut Vec<u8>, label: &[u8], tally: &Tally)
    requires room { HasRoom to.old MAX_TALLY }
    requires short { length label.now ≤ MAX_LABEL }
    requires range { IsGrossInRange tally.now }
    ensures { Appended to.old to.new (tally_line label.now tally.now) MAX_TALLY }
{
    append_numbered(to, label, tally.count);
    append_weighed(to, b" gross ", &tally.gross);
    append(to, b"\n");
}
