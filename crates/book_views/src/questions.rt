ghost use Rattle.std.specs.Prelude.{◌≡◌, false, Ok, IfOk, IsOk};
ghost use Rattle.book_words.specs.Views as told;

use crate::packs::view_packs;
use crate::rows::view_rows;
use crate::views::{summarize, terms_of, view_lane, view_pack, view_sample, view_sheet};
use book_verdicts::{NoMemory, State, lane_number};
use book_words::{Name, Question, Refusal, Reply};
use std::alloc::Global;

// What stands of a batch.
fn tell_sheet(state: &State, batch: &Name) -> Result<Reply, Refusal>
    ensures { result ≡ told.question_told state.now.entries (Question.Sheet batch.now) }
{
    match view_sheet(state, batch) {
        Some(sheet) => Ok(Reply::SheetIs(sheet)),
        None => Err(Refusal::BatchUnknown),
    }
}

// What stands of a pack.
fn tell_pack(state: &State, pack: u32) -> Result<Reply, Refusal>
    ensures { result ≡ told.question_told state.now.entries (Question.Pack pack) }
{
    match view_pack(state, pack) {
        Some(view) => Ok(Reply::PackIs(view)),
        None => Err(Refusal::PackUnknown),
    }
}

// What a lane does.
fn tell_lane(state: &State, lane: u8) -> Result<Reply, Refusal>
    ensures { result ≡ told.question_told state.now.entries (Question.Lane lane) }
{
    match lane_number(lane) {
        Some(refusal) => Err(refusal),
        None => Ok(Reply::LaneIs(view_lane(state, lane))),
    }
}

// The packs that were drawn from a batch.
fn tell_sample(
    alloc: Global,
    state: &State,
    batch: &Name,
) -> Result<Result<Reply, Refusal>, NoMemory>
    ensures { IfOk result (λ answer. answer
        ≡ told.question_told state.now.entries (Question.Sample batch.now)) }
{
    if state.product(batch).is_none() {
        return Ok(Err(Refusal::BatchUnknown));
    }
    match view_sample(alloc, state, batch)? {
        Some(view) => Ok(Ok(Reply::SampleIs(view))),
        None => Ok(Err(Refusal::NotDrawn)),
    }
}

// The rows behind so many, a page of them.
fn tell_rows(alloc: Global, state: &State, after: u32) -> Result<Result<Reply, Refusal>, NoMemory>
    ensures { IfOk result (λ answer. answer
        ≡ told.question_told state.now.entries (Question.Rows after)) }
{
    let view = view_rows(alloc, state, after)?;
    Ok(Ok(Reply::RowsAre(view)))
}

// The same page, to be shipped.
fn tell_shipment(
    alloc: Global,
    state: &State,
    after: u32,
) -> Result<Result<Reply, Refusal>, NoMemory>
    ensures { IfOk result (λ answer. answer
        ≡ told.question_told state.now.entries (Question.Shipment after)) }
{
    let view = view_rows(alloc, state, after)?;
    Ok(Ok(Reply::ShipmentIs(view)))
}

// The packs of a batch above a number, a page of them.
fn tell_packs(
    alloc: Global,
    state: &State,
    batch: &Name,
    after: u32,
) -> Result<Result<Reply, Refusal>, NoMemory>
    ensures { IfOk result (λ answer. answer
        ≡ told.question_told state.now.entries (Question.Packs batch.now after)) }
{
    let Some(terms) = terms_of(state, batch) else {
        return Ok(Err(Refusal::BatchUnknown));
    };
    let view = view_packs(alloc, state, &terms, after)?;
    Ok(Ok(Reply::PacksAre(view)))
}

/// The answer to a question. Memory is taken for the packs of a sample and for a page alone.
pub fn look(
    alloc: Global,
    state: &State,
    question: &Question,
) -> Result<Result<Reply, Refusal>, NoMemory>
    ensures told { IfOk result (λ answer. answer
        ≡ told.question_told state.now.entries question.now) }
    ensures sure { told.takes_memory question.now ≡ false → IsOk result }
{
    match question {
        Question::Sheet { batch } => Ok(tell_sheet(state, batch)),
        Question::Pack { pack } => Ok(tell_pack(state, *pack)),
        Question::Lane { lane } => Ok(tell_lane(state, *lane)),
        Question::Sample { batch } => tell_sample(alloc, state, batch),
        Question::Summary => Ok(Ok(Reply::SummaryIs(summarize(state)))),
        Question::Rows { after } => tell_rows(alloc, state, *after),
        Question::Shipment { after } => tell_shipment(alloc, state, *after),
        Question::Packs { batch, after } => tell_packs(alloc, state, batch, *after),
    }
}
