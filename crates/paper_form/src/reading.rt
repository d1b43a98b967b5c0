ghost use Rattle.std.specs.Prelude.{◌≡◌, ◌≤◌, ◌+◌, length, ◌∷◌, ◌++◌, [], true, None, Some, IfErr, OnOk, int_lt};
ghost use Rattle.paper_form.specs.Form.{follows, adds, next, next_text, is_later, is_greater, is_next, is_pick_right};
ghost use Rattle.paper_form.specs.Drafts.{draft_of, size_of, IsRefused, IsUntaken};
ghost use Rattle.paper_form.specs.Papers.{is_tare_in_range, is_pack_in_range, is_pick_in_range};
ghost use Rattle.paper_form.specs.Ranges.{is_line_in_range, AreTaresListed, ArePacksListed, ArePicksInRange, IsDraftListed};

use crate::lines::read_line;
use crate::types::{Draw, Goods, Line, Pack, PaperFault, Pick, Stage};
use annex_tables::{MAX_POPULATION, Mode};
use book_words::Verdict;
use pack_judge::DatedTare;

/// What the lines of a paper say that were read so far, and what may come next.
#[derive(Drop)]
pub struct Reading {
    pub stage: Stage,
    pub goods: Option<Goods>,
    pub tares: Vec<DatedTare>,
    pub packs: Vec<Pack>,
    pub draw: Option<Draw>,
    pub first: Vec<Pick>,
    pub second_word: Option<u64>,
    pub second: Vec<Pick>,
    pub verdict: Option<Verdict>,
}

/// What a paper says.
pub struct Paper {
    pub goods: Goods,
    pub tares: Vec<DatedTare>,
    pub packs: Vec<Pack>,
    pub draw: Option<Draw>,
    pub first: Vec<Pick>,
    pub second_word: Option<u64>,
    pub second: Vec<Pick>,
    pub verdict: Verdict,
}

// By hand, so that letting one go is one call, where a derived drop is spelled at each exit.
impl Drop for Paper {
    fn drop(self) {
        let Self {
            goods: _,
            tares: _,
            packs: _,
            draw: _,
            first: _,
            second_word: _,
            second: _,
            verdict: _,
        } = self;
    }
}

// What may come behind a line where tares may.
fn after_tares(line: &Line) -> Option<Stage>
    ensures { result ≡ follows Stage.Tares line.now }
{
    match line {
        Line::Tare(_) => Some(Stage::Tares),
        Line::Pack(_) => Some(Stage::Packs),
        Line::Verdict(_) => Some(Stage::End),
        _ => None,
    }
}

// What may come behind a line where packs may.
fn after_packs(line: &Line) -> Option<Stage>
    ensures { result ≡ follows Stage.Packs line.now }
{
    match line {
        Line::Pack(_) => Some(Stage::Packs),
        Line::Mode(_) => Some(Stage::First),
        _ => None,
    }
}

// What may come behind a line where packs of the first sample may.
fn after_first(line: &Line) -> Option<Stage>
    ensures { result ≡ follows Stage.First line.now }
{
    match line {
        Line::First(_) => Some(Stage::First),
        Line::Word(_) => Some(Stage::Second),
        Line::Verdict(_) => Some(Stage::End),
        _ => None,
    }
}

// What may come behind a line where packs of the second sample may.
fn after_second(line: &Line) -> Option<Stage>
    ensures { result ≡ follows Stage.Second line.now }
{
    match line {
        Line::Second(_) => Some(Stage::Second),
        Line::Verdict(_) => Some(Stage::End),
        _ => None,
    }
}

// What may come behind a line that comes at a stage, where it may come there.
fn stage_after(stage: Stage, line: &Line) -> Option<Stage>
    ensures { result ≡ follows stage line.now }
{
    match stage {
        Stage::Title => matches!(line, Line::Title).then_some(Stage::Goods),
        Stage::Goods => matches!(line, Line::Goods(_)).then_some(Stage::Tares),
        Stage::Tares => after_tares(line),
        Stage::Packs => after_packs(line),
        Stage::First => after_first(line),
        Stage::Second => after_second(line),
        Stage::End => None,
    }
}

// Whether a tare is for a later day than another.
fn is_after(before: &DatedTare, dated: &DatedTare) -> bool
    ensures { result ≡ int_lt before.now.day dated.now.day }
{
    before.day < dated.day
}

// Whether a tare is for a later day than those before it.
fn is_later(tares: &[DatedTare], dated: &DatedTare) -> bool
    ensures { result ≡ is_later tares.now dated.now }
{
    match tares.last() {
        None => true,
        Some(before) => is_after(before, dated),
    }
}

// Whether a pack has a greater number than those before it.
fn is_greater(packs: &[Pack], pack: &Pack) -> bool
    ensures { result ≡ is_greater packs.now pack.now }
{
    match packs.last() {
        None => true,
        Some(before) => before.number < pack.number,
    }
}

// Whether it has, and there may be one more.
fn is_next(packs: &[Pack], pack: &Pack) -> bool
    ensures { result ≡ is_next packs.now pack.now }
{
    is_greater(packs, pack) && packs.len() < MAX_POPULATION as usize
}

// Whether a pack of a sample may be said so where this is what was drawn by.
fn is_pick_right(draw: &Option<Draw>, pick: &Pick) -> bool
    ensures { result ≡ is_pick_right draw.now pick.now }
{
    match (draw, pick.weighed) {
        (
            Some(
                Draw {
                    mode: Mode::Keep,
                    ..
                },
            ),
            Some(weighed),
        ) => weighed.empty == 0,
        _ => true,
    }
}

fn add_tare(tares: &mut Vec<DatedTare>, line: u32, dated: &DatedTare) -> Result<(), PaperFault>
    requires listed { AreTaresListed tares.old.items }
    requires range { is_tare_in_range dated.now ≡ true }
    ensures longer { OnOk result (length tares.new.items ≡ length tares.old.items + 1) }
    ensures added { OnOk result (tares.new.items ≡ tares.old.items ++ dated.now ∷ []) }
    ensures later { OnOk result (is_later tares.old.items dated.now ≡ true) }
    ensures listed { OnOk result (AreTaresListed tares.new.items) }
    ensures refused { IfErr result (IsRefused line (is_later tares.old.items dated.now)) }
{
    if !is_later(tares, dated) {
        return Err(PaperFault::Line { line });
    }
    match tares.push(*dated) {
        Ok(()) => Ok(()),
        Err(_) => Err(PaperFault::NoMemory),
    }
}

fn add_pack(packs: &mut Vec<Pack>, line: u32, pack: &Pack) -> Result<(), PaperFault>
    requires listed { ArePacksListed packs.old.items }
    requires range { is_pack_in_range pack.now ≡ true }
    ensures longer { OnOk result (length packs.new.items ≡ length packs.old.items + 1) }
    ensures added { OnOk result (packs.new.items ≡ packs.old.items ++ pack.now ∷ []) }
    ensures next { OnOk result (is_next packs.old.items pack.now ≡ true) }
    ensures listed { OnOk result (ArePacksListed packs.new.items) }
    ensures refused { IfErr result (IsRefused line (is_next packs.old.items pack.now)) }
{
    if !is_next(packs, pack) {
        return Err(PaperFault::Line { line });
    }
    match packs.push(*pack) {
        Ok(()) => Ok(()),
        Err(_) => Err(PaperFault::NoMemory),
    }
}

fn add_pick(
    picks: &mut Vec<Pick>,
    line: u32,
    draw: &Option<Draw>,
    pick: &Pick,
) -> Result<(), PaperFault>
    requires listed { ArePicksInRange picks.old.items }
    requires range { is_pick_in_range pick.now ≡ true }
    ensures longer { OnOk result (length picks.new.items ≡ length picks.old.items + 1) }
    ensures added { OnOk result (picks.new.items ≡ picks.old.items ++ pick.now ∷ []) }
    ensures right { OnOk result (is_pick_right draw.now pick.now ≡ true) }
    ensures listed { OnOk result (ArePicksInRange picks.new.items) }
    ensures refused { IfErr result (IsRefused line (is_pick_right draw.now pick.now)) }
{
    if !is_pick_right(draw, pick) {
        return Err(PaperFault::Line { line });
    }
    match picks.push(*pick) {
        Ok(()) => Ok(()),
        Err(_) => Err(PaperFault::NoMemory),
    }
}

// Adds what a line says, where it may stand behind the lines of its kind.
fn add_line(reading: &mut Reading, line: u32, said: &Line) -> Result<(), PaperFault>
    requires listed { IsDraftListed (draft_of reading.old) }
    requires range { is_line_in_range said.now ≡ true }
    ensures longer { OnOk result
        (size_of (draft_of reading.new) ≤ size_of (draft_of reading.old) + 1) }
    ensures listed { OnOk result (IsDraftListed (draft_of reading.new)) }
    ensures added { OnOk result
        (adds (draft_of reading.old) said.now ≡ Some (draft_of reading.new)) }
    ensures refused { IfErr result (IsUntaken line (adds (draft_of reading.old) said.now)) }
{
    match said {
        Line::Title => {}
        Line::Goods(goods) => reading.goods = Some(*goods),
        Line::Tare(dated) => add_tare(&mut reading.tares, line, dated)?,
        Line::Pack(pack) => add_pack(&mut reading.packs, line, pack)?,
        Line::Mode(draw) => reading.draw = Some(*draw),
        Line::First(pick) => add_pick(&mut reading.first, line, &reading.draw, pick)?,
        Line::Word(word) => reading.second_word = Some(*word),
        Line::Second(pick) => add_pick(&mut reading.second, line, &reading.draw, pick)?,
        Line::Verdict(verdict) => reading.verdict = Some(*verdict),
    }
    Ok(())
}

// Takes a line, where it is the next one of a paper.
fn take_line(reading: &mut Reading, line: u32, said: &Line) -> Result<(), PaperFault>
    requires listed { IsDraftListed (draft_of reading.old) }
    requires range { is_line_in_range said.now ≡ true }
    ensures longer { OnOk result
        (size_of (draft_of reading.new) ≤ size_of (draft_of reading.old) + 1) }
    ensures listed { OnOk result (IsDraftListed (draft_of reading.new)) }
    ensures taken { OnOk result
        (next (draft_of reading.old) said.now ≡ Some (draft_of reading.new)) }
    ensures refused { IfErr result (IsUntaken line (next (draft_of reading.old) said.now)) }
{
    let Some(stage) = stage_after(reading.stage, said) else {
        return Err(PaperFault::Line { line });
    };
    reading.stage = stage;
    add_line(reading, line, said)?;
    Ok(())
}

/// Takes the text of a line, where it is the next one of a paper; it comes without its LF. What a
/// refused line leaves isn't told.
pub fn take_text(reading: &mut Reading, line: u32, text: &[u8]) -> Result<(), PaperFault>
    requires listed { IsDraftListed (draft_of reading.old) }
    ensures longer { OnOk result
        (size_of (draft_of reading.new) ≤ size_of (draft_of reading.old) + 1) }
    ensures listed { OnOk result (IsDraftListed (draft_of reading.new)) }
    ensures taken { OnOk result
        (next_text (draft_of reading.old) text.now ≡ Some (draft_of reading.new)) }
    ensures refused { IfErr result
        (IsUntaken line (next_text (draft_of reading.old) text.now)) }
{
    let Some(said) = read_line(text) else {
        return Err(PaperFault::Line { line });
    };
    take_line(reading, line, &said)?;
    Ok(())
}
