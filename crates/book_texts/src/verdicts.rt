ghost use Rattle.std.specs.Prelude.{◌≤◌, ◌++◌, codes, length};
ghost use Rattle.book_texts.specs.Appending.{HasRoom, Appended};
ghost use Rattle.book_texts.specs.Words.{part_text, fails_text, verdict_text};

use crate::pieces::append;
use book_words::{Fails, Verdict};

/// The most bytes of a blank and the word for a part of the test.
const MAX_PART: usize = 11;

/// The most bytes of the words for the parts that fail.
const MAX_PARTS: usize = 5 * MAX_PART;

/// The most bytes of the words for a verdict: `withheld` and the parts that fail.
pub const MAX_VERDICT: usize = 8 + MAX_PARTS;

/// Appends the words for a verdict.
pub fn push_verdict(to: &mut Vec<u8>, verdict: &Verdict)
    requires { HasRoom to.old MAX_VERDICT }
    ensures { Appended to.old to.new (verdict_text verdict.now) MAX_VERDICT }
{
    match verdict {
        Verdict::Empty => append(to, b"empty"),
        Verdict::Released => append(to, b"released"),
        Verdict::Withheld(fails) => push_withheld(to, fails),
    }
}

// Appends `withheld` and the words for the parts that fail.
fn push_withheld(to: &mut Vec<u8>, fails: &Fails)
    requires { HasRoom to.old MAX_VERDICT }
    ensures { Appended to.old to.new (codes "withheld" ++ fails_text fails.now) MAX_VERDICT }
{
    append(to, b"withheld");
    push_fails(to, fails);
}

// Appends the words for the parts that fail.
fn push_fails(to: &mut Vec<u8>, fails: &Fails)
    requires { HasRoom to.old MAX_PARTS }
    ensures { Appended to.old to.new (fails_text fails.now) MAX_PARTS }
{
    push_part(to, fails.contents, b" contents");
    push_part(to, fails.mean, b" mean");
    push_part(to, fails.average, b" average");
    push_part(to, fails.allowance, b" allowance");
    push_part(to, fails.inadequate, b" inadequate");
}

// Appends some words where a part fails.
fn push_part(to: &mut Vec<u8>, fails: bool, words: &[u8])
    requires room { HasRoom to.old MAX_PART }
    requires short { length words.now ≤ MAX_PART }
    ensures { Appended to.old to.new (part_text fails words.now) MAX_PART }
{
    if fails {
        append(to, words);
    }
}
