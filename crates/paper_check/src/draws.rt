ghost use Rattle.std.specs.Prelude.{◌≡◌, ◌+◌, ◌≤◌, None, Ok, IfOk, length, is_none, if◌then◌else◌, ◌==◌};
ghost use Rattle.std.specs.List.{common_prefix_len, position_from};
ghost use Rattle.paper_form.specs.Drafts.{data_of};
ghost use Rattle.paper_form.specs.Ranges.{IsListed, IsShort};
ghost use Rattle.paper_check.specs.Keyed.{AreKeysOf};
ghost use Rattle.paper_check.specs.Judging.{sample_in};
ghost use Rattle.paper_check.specs.Faults.{draw_line, after_first, second_line, verdict_line, stray_line, earlier_line, unmeasured_line, second_fault, samples_fault, draw_fault};

use crate::tares::Keys;
use crate::verdicts::needs_second;
use annex_tables::{Plan, plan};
use paper_form::{Draw, Paper, Pick};
use sample_draw::{Picks, draw, draw_more};
use std::alloc::{AllocError, Global};

// How many packs of a sample are those drawn, up to the first that isn't.
fn count_same(picks: &[Pick], drawn: &[u64]) -> usize
    ensures value { result
        ≡ common_prefix_len (λ pick number. pick.pack == number) picks.now drawn.now }
    ensures within { result ≤ length picks.now }
{
    let mut same = 0;
    for pick in picks {
        if same == drawn.len() {
            return same;
        }
        if u64::from(pick.pack) != drawn[same] {
            return same;
        }
        same += 1;
    }
    same
}

// The line at which a sample that begins at a line strays from the packs drawn.
fn find_stray(begin: u32, drawn: &[u64], picks: &[Pick]) -> Option<u32>
    requires few { begin + length picks.now ≤ u32.MAX }
    ensures { result ≡ stray_line begin drawn.now picks.now }
{
    let same = count_same(picks, drawn);
    if same == picks.len() && same == drawn.len() {
        None
    } else {
        Some(begin + same as u32)
    }
}

// The line of the first pack of a sample that isn't measured, which begins at a line.
fn find_unmeasured(begin: u32, picks: &[Pick]) -> Option<u32>
    requires few { begin + length picks.now ≤ u32.MAX }
    ensures { result ≡ position_from (λ pick. is_none pick.weighed) begin picks.now }
{
    let mut line = begin;
    for pick in picks {
        if pick.weighed.is_none() {
            return Some(line);
        }
        line += 1;
    }
    None
}

// The line of the mode of a paper.
fn draw_line(paper: &Paper) -> u32
    requires short { IsShort (data_of paper.now) }
    ensures { result ≡ draw_line (data_of paper.now) }
{
    3 + paper.tares.len() as u32 + paper.packs.len() as u32
}

// The line behind the first sample of a paper.
fn after_first(paper: &Paper) -> u32
    requires short { IsShort (data_of paper.now) }
    ensures { result ≡ after_first (data_of paper.now) }
{
    draw_line(paper) + 1 + paper.first.len() as u32
}

/// The last line of a paper.
pub fn verdict_line(paper: &Paper) -> u32
    requires short { IsShort (data_of paper.now) }
    ensures { result ≡ verdict_line (data_of paper.now) }
{
    if paper.draw.is_none() {
        draw_line(paper)
    } else if paper.second_word.is_none() {
        after_first(paper)
    } else {
        after_first(paper) + 1 + paper.second.len() as u32
    }
}

// The earlier of two lines, where there are any.
fn earlier_line(a: Option<u32>, b: Option<u32>) -> Option<u32>
    ensures { result ≡ earlier_line a b }
{
    match (a, b) {
        (Some(a), Some(b)) => Some(a.min(b)),
        (Some(a), None) => Some(a),
        (None, b) => b,
    }
}

// The first fault of a second sample that is there and that the plan has.
fn find_given_fault(paper: &Paper, drawn: &Picks, needed: bool) -> Option<u32>
    requires short { IsShort (data_of paper.now) }
    ensures { result ≡ earlier_line (stray_line (second_line (data_of paper.now)) drawn.now
        (data_of paper.now).second) (if needed then unmeasured_line (data_of paper.now) else None) }
{
    let begin = after_first(paper) + 1;
    let strays = find_stray(begin, drawn.as_slice(), &paper.second);
    if !needed {
        return strays;
    }
    earlier_line(strays, find_unmeasured(begin, &paper.second))
}

// The first fault of the second sample, where the first one is right: these are its packs.
fn find_second_fault(
    alloc: Global,
    paper: &Paper,
    keys: &Keys,
    drawing: &Draw,
    plan: &Plan,
    first: &Picks,
) -> Result<Option<u32>, AllocError>
    requires listed { IsListed (data_of paper.now) }
    requires short { IsShort (data_of paper.now) }
    requires keys { AreKeysOf (data_of paper.now) keys.now }
    requires plan { plan.now ≡ (sample_in (data_of paper.now) drawing.now).plan }
    requires first { first.now ≡ (sample_in (data_of paper.now) drawing.now).first }
    requires enough { length first.now + plan.now.second ≤ length paper.now.packs.items }
    ensures { IfOk result (λ line. line ≡ second_fault (data_of paper.now) drawing.now) }
{
    let needed = needs_second(alloc, paper, keys, drawing)?;
    let Some(word) = paper.second_word else {
        return Ok(if needed {
            Some(verdict_line(paper))
        } else {
            None
        });
    };
    if plan.second == 0 {
        return Ok(Some(after_first(paper)));
    }
    let drawn = draw_more(alloc, word, &keys.numbers, first, plan.second)?;
    Ok(find_given_fault(paper, &drawn, needed))
}

// The first fault of the samples, by their plan.
fn find_samples_fault(
    alloc: Global,
    paper: &Paper,
    keys: &Keys,
    drawing: &Draw,
    plan: &Plan,
) -> Result<Option<u32>, AllocError>
    requires listed { IsListed (data_of paper.now) }
    requires short { IsShort (data_of paper.now) }
    requires keys { AreKeysOf (data_of paper.now) keys.now }
    requires plan { plan.now ≡ (sample_in (data_of paper.now) drawing.now).plan }
    requires enough { plan.now.first + plan.now.second ≤ length paper.now.packs.items }
    ensures { IfOk result (λ line. line
        ≡ samples_fault (data_of paper.now) drawing.now (Ok plan.now)) }
{
    let first = draw(alloc, drawing.word, &keys.numbers, plan.first)?;
    let begin = draw_line(paper) + 1;
    if let Some(line) = find_stray(begin, first.as_slice(), &paper.first) {
        return Ok(Some(line));
    }
    let line = find_second_fault(alloc, paper, keys, drawing, plan, &first)?;
    Ok(line)
}

/// The line of the first fault of the draws of a paper.
pub fn find_draw_fault(alloc: Global, paper: &Paper, keys: &Keys) -> Result<Option<u32>, AllocError>
    requires listed { IsListed (data_of paper.now) }
    requires short { IsShort (data_of paper.now) }
    requires keys { AreKeysOf (data_of paper.now) keys.now }
    ensures { IfOk result (λ line. line ≡ draw_fault (data_of paper.now)) }
{
    let Some(drawing) = paper.draw else {
        return Ok(None);
    };
    match plan(paper.packs.len() as u32, drawing.mode) {
        Ok(plan) => find_samples_fault(alloc, paper, keys, &drawing, &plan),
        Err(_) => Ok(Some(draw_line(paper))),
    }
}
