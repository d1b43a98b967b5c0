ghost use Rattle.std.specs.Prelude.{◌≡◌, true, IfSome};
ghost use Rattle.paper_form.specs.Ranges.{is_line_in_range};
ghost use Rattle.paper_form.specs.Lines.{fields_left, begins_with, behind, fails_in, withheld_in, verdict_in, verdict_line, alone};
ghost use Rattle.book_words.specs.Verdicts.{any_fails};

use crate::fields::{is_over, next_field};
use crate::types::Line;
use book_words::{Fails, Verdict};

// Whether a word is the next field; and what is left behind it, or else all.
fn take_word<'a>(word: &[u8], left: &'a [u8]) -> (bool, &'a [u8])
    ensures said { result.0 ≡ begins_with word.now (fields_left left.now) }
    ensures left { fields_left result.1.now ≡ behind word.now (fields_left left.now) }
{
    match next_field(left) {
        Some((field, rest)) if field == word => (true, rest),
        _ => (false, left),
    }
}

// The parts that fail, in their order.
fn read_fails(left: &[u8]) -> Option<Fails>
    ensures { result ≡ fails_in (fields_left left.now) }
{
    let (contents, left) = take_word(b"contents", left);
    let (mean, left) = take_word(b"mean", left);
    let (average, left) = take_word(b"average", left);
    let (allowance, left) = take_word(b"allowance", left);
    let (inadequate, left) = take_word(b"inadequate", left);
    if !is_over(left) {
        return None;
    }
    Some(Fails {
        contents,
        mean,
        average,
        allowance,
        inadequate,
    })
}

// Whether a part fails.
fn any_fails(fails: &Fails) -> bool
    ensures { result ≡ any_fails fails.now }
{
    fails.contents || fails.mean || fails.average || fails.allowance || fails.inadequate
}

// `withheld` and the parts that fail, one at least; without its first word.
fn read_withheld(left: &[u8]) -> Option<Verdict>
    ensures { result ≡ withheld_in (fields_left left.now) }
{
    let fails = read_fails(left)?;
    if !any_fails(&fails) {
        return None;
    }
    Some(Verdict::Withheld(fails))
}

// A verdict behind which nothing is left.
fn alone(verdict: Verdict, left: &[u8]) -> Option<Verdict>
    ensures { result ≡ alone verdict (fields_left left.now) }
{
    if is_over(left) { Some(verdict) } else { None }
}

// A verdict: its word, and the parts that fail.
fn read_verdict_fields(left: &[u8]) -> Option<Verdict>
    ensures { result ≡ verdict_in (fields_left left.now) }
{
    let (word, left) = next_field(left)?;
    if word == b"empty".as_slice() {
        alone(Verdict::Empty, left)
    } else if word == b"released".as_slice() {
        alone(Verdict::Released, left)
    } else if word == b"withheld".as_slice() {
        read_withheld(left)
    } else {
        None
    }
}

/// `verdict VERDICT`, without its first word.
pub fn read_verdict(left: &[u8]) -> Option<Line>
    ensures value { result ≡ verdict_line (fields_left left.now) }
    ensures range { IfSome result (λ line. is_line_in_range line ≡ true) }
{
    let verdict = read_verdict_fields(left)?;
    Some(Line::Verdict(verdict))
}
