ghost use Rattle.std.specs.Prelude.{◌≡◌};
ghost use Rattle.script_lines.specs.Words.{words_of};
ghost use Rattle.script_lines.specs.Script.{question_by, sheet_line, pack_line, lane_line};
ghost use Rattle.script_lines.specs.Script.{sample_line, summary_line, acts_line, packs_line};

use crate::command::Verb;
use crate::fields::{read_lane, read_pack};
use crate::words::{first_word, only_word};
use book_words::Name;

/// The question of a first word and of the words that follow it, where there is such a question.
pub fn read_question(word: &[u8], rest: &[u8]) -> Option<Verb>
    ensures { result ≡ question_by word.now (words_of rest.now) }
{
    if word == b"sheet".as_slice() {
        sheet(rest)
    } else if word == b"pack".as_slice() {
        pack(rest)
    } else if word == b"lane".as_slice() {
        lane(rest)
    } else if word == b"sample".as_slice() {
        sample(rest)
    } else if word == b"summary".as_slice() {
        summary(rest)
    } else if word == b"acts".as_slice() {
        acts(rest)
    } else if word == b"packs".as_slice() {
        packs(rest)
    } else {
        None
    }
}

// `sheet BATCH`, without its first word, as the others.
fn sheet(rest: &[u8]) -> Option<Verb>
    ensures { result ≡ sheet_line (words_of rest.now) }
{
    let batch = only_word(rest)?;
    let batch = Name::new(batch)?;
    Some(Verb::Sheet { batch })
}

// `pack PACK`.
fn pack(rest: &[u8]) -> Option<Verb>
    ensures { result ≡ pack_line (words_of rest.now) }
{
    let number = only_word(rest)?;
    let pack = read_pack(number)?;
    Some(Verb::Pack { pack })
}

// `lane LANE`.
fn lane(rest: &[u8]) -> Option<Verb>
    ensures { result ≡ lane_line (words_of rest.now) }
{
    let number = only_word(rest)?;
    let lane = read_lane(number)?;
    Some(Verb::Lane { lane })
}

// `sample BATCH`.
fn sample(rest: &[u8]) -> Option<Verb>
    ensures { result ≡ sample_line (words_of rest.now) }
{
    let batch = only_word(rest)?;
    let batch = Name::new(batch)?;
    Some(Verb::Sample { batch })
}

// `summary`.
fn summary(rest: &[u8]) -> Option<Verb>
    ensures { result ≡ summary_line (words_of rest.now) }
{
    if first_word(rest).is_some() {
        return None;
    }
    Some(Verb::Summary)
}

// `acts ROW`: a number of as many bits as that of a pack.
fn acts(rest: &[u8]) -> Option<Verb>
    ensures { result ≡ acts_line (words_of rest.now) }
{
    let number = only_word(rest)?;
    let after = read_pack(number)?;
    Some(Verb::Acts { after })
}

// `packs BATCH PACK`.
fn packs(rest: &[u8]) -> Option<Verb>
    ensures { result ≡ packs_line (words_of rest.now) }
{
    let (batch, rest) = first_word(rest)?;
    let number = only_word(rest)?;
    let batch = Name::new(batch)?;
    let after = read_pack(number)?;
    Some(Verb::Packs { batch, after })
}
