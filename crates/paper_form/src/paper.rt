ghost use Rattle.std.specs.Prelude.{◌≡◌, ◌≤◌, Ok, IfOk, IfErr, IfSome, length, option_map};
ghost use Rattle.paper_form.specs.Form.{no_lines, whole_of, ends_with, paper_in};
ghost use Rattle.paper_form.specs.Drafts.{draft_of, data_of, size_of, IsUnread};
ghost use Rattle.paper_form.specs.Papers.{PaperData, paper_text};
ghost use Rattle.paper_form.specs.Ranges.{IsDraftListed, IsListed, IsPaper, IsShort, SaysLines};

use crate::fields::split_line;
use crate::reading::{Paper, Reading, take_text};
use crate::types::{MAX_PAPER, PaperFault, Stage};
use std::alloc::Global;

// A reading that has read nothing. It takes no memory.
fn begin(alloc: Global) -> Reading
    ensures value { draft_of result ≡ no_lines }
    ensures listed { IsDraftListed (draft_of result) }
{
    Reading {
        stage: Stage::Title,
        goods: None,
        tares: Vec::new(alloc),
        packs: Vec::new(alloc),
        draw: None,
        first: Vec::new(alloc),
        second_word: None,
        second: Vec::new(alloc),
        verdict: None,
    }
}

// What the lines of a whole paper say.
fn whole(reading: Reading) -> Option<Paper>
    requires listed { IsDraftListed (draft_of reading) }
    requires short { size_of (draft_of reading) ≤ MAX_PAPER }
    ensures short { IfSome result (λ paper. IsShort (data_of paper)) }
    ensures value { option_map data_of result ≡ whole_of (draft_of reading) }
    ensures listed { IfSome result (λ paper. IsListed (data_of paper)) }
{
    let goods = reading.goods?;
    let verdict = reading.verdict?;
    Some(Paper {
        goods,
        tares: reading.tares,
        packs: reading.packs,
        draw: reading.draw,
        first: reading.first,
        second_word: reading.second_word,
        second: reading.second,
        verdict,
    })
}

// The paper whose lines were read, behind which these bytes stand.
fn end(reading: Reading, line: u32, rest: &[u8]) -> Result<Paper, PaperFault>
    requires listed { IsDraftListed (draft_of reading) }
    requires short { size_of (draft_of reading) ≤ MAX_PAPER }
    ensures short { IfOk result (λ paper. IsShort (data_of paper)) }
    ensures read { IfOk result (λ paper.
        ends_with line (draft_of reading) rest.now ≡ Ok (data_of paper)) }
    ensures listed { IfOk result (λ paper. IsListed (data_of paper)) }
    ensures unread { IfErr result (IsUnread (ends_with line (draft_of reading) rest.now)) }
{
    if !rest.is_empty() {
        return Err(PaperFault::Line { line });
    }
    match whole(reading) {
        Some(paper) => Ok(paper),
        None => Err(PaperFault::Line { line }),
    }
}

/// Reads a paper line by line, up to the first line that isn't the next one of a paper. What is read
/// is a paper, whose lines are those of the text, and the text of a paper is read as its data.
#[tactic(auto, using(crate::proofs::RoundTrip::paper_read))]
pub fn read_paper(alloc: Global, bytes: &[u8]) -> Result<Paper, PaperFault>
    requires short { length bytes.now ≤ MAX_PAPER }
    ensures read { IfOk result (λ paper. paper_in bytes.now ≡ Ok (data_of paper)) }
    ensures listed { IfOk result (λ paper. IsListed (data_of paper)) }
    ensures short { IfOk result (λ paper. IsShort (data_of paper)) }
    ensures paper { IfOk result (λ paper. IsPaper (data_of paper)) }
    ensures lines { IfOk result (λ paper. SaysLines bytes.now (data_of paper)) }
    ensures unread { IfErr result (IsUnread (paper_in bytes.now)) }
    ensures written { (paper : PaperData) → IsPaper paper → bytes.now ≡ paper_text paper
        → paper_in bytes.now ≡ Ok paper }
{
    let mut reading = begin(alloc);
    let mut line = 1;
    let mut rest = bytes;
    while let Some((text, after)) = split_line(rest) {
        take_text(&mut reading, line, text)?;
        line += 1;
        rest = after;
    }
    end(reading, line, rest)
}
