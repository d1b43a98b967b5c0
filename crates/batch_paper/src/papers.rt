ghost use Rattle.std.specs.Prelude.{◌≡◌, ◌≢◌, [], ◌++◌, ◌↔◌, ◌<◌, ◌≤◌, ◌^◌, length, All, IfOk, OnOk, Some, None, Err, IsTrue, map};
ghost use Rattle.std.specs.List.{AllPass, flat_map};
ghost use Rattle.std.specs.Option.{option_to_list, unwrap_or};
ghost use Rattle.book_words.specs.declared.name.Name as names;
ghost use Rattle.paper_form.specs.declared.types.TheConstants.{MAX_PAPER};
ghost use Rattle.paper_form.specs.declared.types.Line.TheVariants as line;
ghost use Rattle.book_words.specs.declared.act.BatchState as states;
ghost use Rattle.book_words.specs.declared.act.BatchState.TheVariants.{Closed};
ghost use Rattle.book_words.specs.Acts.{last_said, product_of, state_of};
ghost use Rattle.book_words.specs.Answers.{IsLegal};
ghost use Rattle.book_words.specs.Samples.{second_word};
ghost use Rattle.book_words.specs.Verdicts.{second_packs};
ghost use Rattle.paper_form.specs.Papers.{line_text, paper_text, is_tare_in_range};
ghost use Rattle.batch_paper.specs.Ranges.{IsWordOf, is_pack_right};
ghost use Rattle.batch_paper.specs.Written.{first_word, first_picks, second_picks, pick_line, tare_for, tare_lines, pack_lines, sample_lines, product_paper};
ghost use Rattle.batch_paper.specs.Outcomes.{IsPaperOf};
ghost use Rattle.batch_paper.specs.declared.picks.Part.TheVariants as part;
ghost use Rattle.batch_paper.specs.declared.types.PaperError.TheVariants as error;

use crate::goods::{goods_of, tare_for};
use crate::lines::write_line;
use crate::packs::{list_days, list_packs};
use crate::picks::{Part, write_picks};
use crate::types::{Paper, PaperError};
use crate::words::{Words, words_of};
use book_core::{Book, Rows};
use book_samples::Sample;
use book_state::State;
use book_verdicts::verdict_of;
use book_words::{BatchState, Entry, Name};
use hall_limits::MAX_ROWS;
use paper_form::{Draw, Line, Pack};
use std::alloc::{AllocError, Global};

// Writes a line for each of some days: the tare of a batch's product.
fn write_tares(
    to: &mut Vec<u8>,
    state: &State,
    batch: &Name,
    days: &[i32],
) -> Result<(), AllocError>
    requires range { AllPass (λ day. is_tare_in_range (tare_for state.now.entries batch.now day))
        days.now }
    ensures { OnOk result (to.new.items ≡ to.old.items ++ flat_map line_text
        (tare_lines (map (tare_for state.now.entries batch.now) days.now))) }
{
    for day in days {
        write_line(to, &Line::Tare(tare_for(state, batch, *day)))?;
    }
    Ok(())
}

// Writes a line for each of some packs.
fn write_packs(to: &mut Vec<u8>, packs: &[Pack]) -> Result<(), AllocError>
    requires { AllPass is_pack_right packs.now }
    ensures { OnOk result (to.new.items ≡ to.old.items
        ++ flat_map line_text (pack_lines packs.now)) }
{
    for pack in packs {
        write_line(to, &Line::Pack(*pack))?;
    }
    Ok(())
}

// Writes the line of the word of a second sample, where there is one.
fn write_word(to: &mut Vec<u8>, word: Option<u64>) -> Result<(), AllocError>
    ensures { OnOk result (to.new.items ≡ to.old.items ++ flat_map line_text
        (map (λ word. line.Word word) (option_to_list word))) }
{
    if let Some(word) = word {
        write_line(to, &Line::Word(word))?;
    }
    Ok(())
}

// The packs of the second sample; none where it wasn't drawn.
fn second_slice(sample: &Sample) -> &[u64]
    ensures { result.now ≡ second_packs sample.now }
{
    match sample.second() {
        Some(picks) => picks.as_slice(),
        None => &[],
    }
}

// Writes the lines of the samples that were drawn by some words.
fn write_drawn(
    to: &mut Vec<u8>,
    state: &State,
    sample: &Sample,
    words: &Words,
) -> Result<(), AllocError>
    requires first { All (λ pack. pack < 2 ^ 32) sample.now.first }
    requires second { All (λ pack. pack < 2 ^ 32) (second_packs sample.now) }
    requires legal { IsLegal state.now.entries }
    ensures { OnOk result (to.new.items ≡ to.old.items
        ++ line_text (line.Mode (record {
          mode = sample.now.mode;
          word = unwrap_or words.now.first 0;
        }))
        ++ flat_map line_text (map (pick_line part.First)
        (first_picks state.now.entries sample.now))
        ++ flat_map line_text (map (λ word. line.Word word) (option_to_list words.now.second))
        ++ flat_map line_text (map (pick_line part.Second)
        (second_picks state.now.entries sample.now))) }
{
    let mode = sample.mode();
    let draw = Draw {
        mode,
        word: words.first.unwrap_or(0),
    };
    write_line(to, &Line::Mode(draw))?;
    write_picks(to, state, Part::First, mode, sample.first().as_slice())?;
    write_word(to, words.second)?;
    write_picks(to, state, Part::Second, mode, second_slice(sample))?;
    Ok(())
}

// Writes the lines of the samples of a batch, where one was drawn.
fn write_samples(
    to: &mut Vec<u8>,
    state: &State,
    batch: &Name,
    words: &Words,
) -> Result<(), AllocError>
    requires first { words.now.first ≡ last_said (first_word batch.now) state.now.entries }
    requires second { words.now.second ≡ last_said (second_word batch.now) state.now.entries }
    requires legal { IsLegal state.now.entries }
    ensures { (product : names.Name) → OnOk result (to.new.items ≡ to.old.items
        ++ flat_map line_text (sample_lines (product_paper state.now.entries batch.now product))) }
{
    if let Some(sample) = state.sample(batch) {
        write_drawn(to, state, sample, words)?;
    }
    Ok(())
}

// The text of the paper of a batch of a product.
fn write_text(
    alloc: Global,
    state: &State,
    batch: &Name,
    product: &Name,
) -> Result<Vec<u8>, AllocError>
    requires known { product_of state.now.entries batch.now ≡ Some product.now }
    requires legal { IsLegal state.now.entries }
    ensures text { IfOk result (λ text. text.items
        ≡ paper_text (product_paper state.now.entries batch.now product.now)) }
    ensures short { IfOk result (λ text. length text.items ≤ MAX_PAPER) }
    ensures words { IfOk result (λ _. IsWordOf (last_said (first_word batch.now) state.now.entries)
        × IsWordOf (last_said (second_word batch.now) state.now.entries)) }
{
    let packs = list_packs(alloc, state, batch)?;
    let days = list_days(alloc, &packs)?;
    let words = words_of(state.entries(), batch);
    let mut text = Vec::new(alloc);
    write_line(&mut text, &Line::Title)?;
    write_line(&mut text, &Line::Goods(goods_of(state, batch, product)))?;
    write_tares(&mut text, state, batch, &days)?;
    write_packs(&mut text, &packs)?;
    write_samples(&mut text, state, batch, &words)?;
    write_line(&mut text, &Line::Verdict(verdict_of(state, batch)))?;
    Ok(text)
}

// The paper of a closed batch.
fn write_closed(alloc: Global, state: &State, batch: &Name) -> Result<Paper, AllocError>
    requires closed { state_of state.now.entries batch.now ≡ Some Closed }
    requires legal { IsLegal state.now.entries }
    ensures { IfOk result (IsPaperOf state.now.entries batch.now) }
{
    let Some(product) = state.product(batch) else {
        unreachable!()
    };
    let text = write_text(alloc, state, batch, &product)?;
    Ok(Paper::new(text))
}

/// The paper of a closed batch of an open book: the text of what its list says of the batch.
/// Unknown comes exactly where there is no such batch, NotClosed exactly where it isn't closed.
pub fn paper_of_book(alloc: Global, book: &Book, batch: &Name) -> Result<Paper, PaperError>
    ensures ok { IfOk result (IsPaperOf book.now.entries batch.now) }
    ensures unknown { result ≡ Err error.Unknown ↔ (state_of book.now.entries batch.now ≡ None) }
    ensures not_closed { (state : states.BatchState) → (result ≡ Err (error.NotClosed state))
        ↔ ((state_of book.now.entries batch.now ≡ Some state) × (state ≢ Closed)) }
    ensures legal { IsLegal book.now.entries }
{
    let state = book.state();
    let _rows = book.entries();
    match state.state(batch) {
        None => Err(PaperError::Unknown),
        Some(BatchState::Closed) => {
            let paper = write_closed(alloc, state, batch)?;
            Ok(paper)
        }
        Some(state) => Err(PaperError::NotClosed { state }),
    }
}

// Enters these rows into an empty book.
fn replay_all(book: &mut Book, rows: &[Entry]) -> Result<(), AllocError>
    requires { book.old.entries ≡ [] }
    ensures { OnOk result (book.new.entries ≡ rows.now) }
{
    for row in rows {
        if book.replay(*row).is_err() {
            return Err(AllocError);
        }
    }
    Ok(())
}

// The paper of a batch of these rows, by an empty book.
fn replayed_paper(
    alloc: Global,
    rows: &[Entry],
    batch: &Name,
    book: &mut Book,
) -> Result<Paper, PaperError>
    requires { book.old.entries ≡ [] }
    ensures ok { IfOk result (IsPaperOf rows.now batch.now) }
    ensures unknown { result ≡ Err error.Unknown → state_of rows.now batch.now ≡ None }
    ensures not_closed { (state : states.BatchState) → result ≡ Err (error.NotClosed state)
        → (state_of rows.now batch.now ≡ Some state) × (state ≢ Closed) }
{
    replay_all(book, rows)?;
    paper_of_book(alloc, book, batch)
}

/// The paper of a closed batch of a legal list of rows: all that its verdict rests on. Unknown
/// comes only where the batch isn't in the list, NotClosed only where it isn't closed.
pub fn write_paper(alloc: Global, rows: &Rows, batch: &Name) -> Result<Paper, PaperError>
    requires legal { IsLegal rows.now }
    ensures ok { IfOk result (IsPaperOf rows.now batch.now) }
    ensures unknown { result ≡ Err error.Unknown → state_of rows.now batch.now ≡ None }
    ensures not_closed { (state : states.BatchState) → result ≡ Err (error.NotClosed state)
        → (state_of rows.now batch.now ≡ Some state) × (state ≢ Closed) }
{
    let mut book = Book::new(alloc, MAX_ROWS);
    let paper = replayed_paper(alloc, rows.as_slice(), batch, &mut book);
    // (so that no way out above has to let go of a book, part by part)
    let _rows = book.rows();
    paper
}
