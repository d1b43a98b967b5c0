ghost use Rattle.std.specs.Prelude.{◌+◌, ◌*◌, length};
ghost use Rattle.book_words.specs.Ranges.{IsSampleInRange};
ghost use Rattle.book_texts.specs.Appending.{HasRoom, Appended};
ghost use Rattle.batch_reports.specs.Texts.{packs_text, second_text, sample_text};

use book_texts::{MAX_NAMED, append, append_named, append_number};
use book_words::{MAX_DRAWN, SampleView};
use hall_units::MAX_NUMBER;

/// The most bytes of a blank and the number of a pack.
const MAX_PICK: usize = 1 + MAX_NUMBER;

/// The bytes of a blank and `first`.
const FIRST_WORD: usize = 6;

/// The bytes of a blank and `second`.
const SECOND_WORD: usize = 7;

/// The most bytes of the line of the samples: a name, two words, the packs and the LF.
pub const MAX_SAMPLE: usize = MAX_NAMED + FIRST_WORD + SECOND_WORD + MAX_PICK * MAX_DRAWN + 1;

/// Appends the packs of a batch's samples in drawing order, in a line.
#[tactic(auto, unfolding(crate::specs::Texts::sample_text))]
pub fn push_sample(to: &mut Vec<u8>, view: &SampleView)
    requires room { HasRoom to.old MAX_SAMPLE }
    requires range { IsSampleInRange view.now }
    ensures { Appended to.old to.new (sample_text view.now) MAX_SAMPLE }
{
    append_named(to, b"sample ", &view.batch);
    append(to, b" first");
    push_packs(to, view.first.as_slice());
    push_second(to, view.second.as_slice());
    append(to, b"\n");
}

// Appends the packs of a second sample, where one was drawn.
fn push_second(to: &mut Vec<u8>, packs: &[u64])
    requires { HasRoom to.old (SECOND_WORD + MAX_PICK * length packs.now) }
    ensures { Appended to.old to.new (second_text packs.now)
        (SECOND_WORD + MAX_PICK * length packs.now) }
{
    if !packs.is_empty() {
        append(to, b" second");
        push_packs(to, packs);
    }
}

// Appends some packs, each behind a blank.
fn push_packs(to: &mut Vec<u8>, packs: &[u64])
    requires { HasRoom to.old (MAX_PICK * length packs.now) }
    ensures { Appended to.old to.new (packs_text packs.now) (MAX_PICK * length packs.now) }
{
    for pack in packs {
        append(to, b" ");
        append_number(to, *pack);
    }
}
