ghost use Rattle.std.specs.Prelude.{◌≡◌};
ghost use Rattle.std.specs.Option.{option_or};
ghost use Rattle.book_words.specs.Acts.{last_said};
ghost use Rattle.book_words.specs.Samples.{second_word};
ghost use Rattle.batch_paper.specs.Ranges.{IsWordOf};
ghost use Rattle.batch_paper.specs.Written.{first_word, is_close_of, closing_place};

use book_words::{Act, Entry, Name};

/// The words by which the samples of a batch were drawn.
#[derive(Clone, Copy, PartialEq, Eq)]
pub struct Words {
    pub first: Option<u64>,
    pub second: Option<u64>,
}

// The word by which an act draws the first sample of a batch.
fn first_word(batch: &Name, act: &Act) -> Option<u64>
    ensures said { result ≡ first_word batch.now act.now }
    ensures sized { IsWordOf result }
{
    match act {
        Act::Draw {
            batch: name,
            word,
            ..
        } if name.is(batch) => Some(*word),
        _ => None,
    }
}

// The word by which an act draws the second sample of a batch.
fn second_word(batch: &Name, act: &Act) -> Option<u64>
    ensures said { result ≡ second_word batch.now act.now }
    ensures sized { IsWordOf result }
{
    match act {
        Act::DrawSecond { batch: name, word } if name.is(batch) => Some(*word),
        _ => None,
    }
}

/// The words by which some entries draw the samples of a batch.
#[tactic(auto, using(crate::proofs::PaperLines::last_step))]
pub fn words_of(entries: &[Entry], batch: &Name) -> Words
    ensures first { result.first ≡ last_said (first_word batch.now) entries.now }
    ensures second { result.second ≡ last_said (second_word batch.now) entries.now }
    ensures sized { IsWordOf result.first × IsWordOf result.second }
{
    let mut first = None;
    let mut second = None;
    for entry in entries {
        first = first_word(batch, &entry.act).or(first);
        second = second_word(batch, &entry.act).or(second);
    }
    Words { first, second }
}

// Whether an act closes a batch.
fn is_close_of(batch: &Name, act: &Act) -> bool
    ensures { result ≡ is_close_of batch.now act.now }
{
    match act {
        Act::Close { batch: name } => name.is(batch),
        _ => false,
    }
}

/// The place of the entry that closes a batch, from 0.
pub fn closing_place(entries: &[Entry], batch: &Name) -> Option<usize>
    ensures { result ≡ closing_place entries.now batch.now }
{
    entries
        .iter()
        .position(|entry| is_close_of(batch, &entry.act))
}
