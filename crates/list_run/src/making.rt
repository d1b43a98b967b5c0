ghost use Rattle.std.specs.Prelude.{◌≡◌, ℤ, true, IfSome};
ghost use Rattle.std.specs.Option.{option_and_then};
ghost use Rattle.book_words.specs.Acts.{batch_opened};
ghost use Rattle.book_words.specs.Desks.{is_desk};
ghost use Rattle.book_words.specs.Ranges.{is_act_in_range};
ghost use Rattle.list_run.specs.Listing as told;
ghost use Rattle.list_run.specs.Ranges.{IsInRange, IsTare};
ghost use Rattle.hall_units.specs.Days.{IsDay};

use crate::types::{BatchLine, DeskLine, LaneLine, Line, ProductLine, RowsLine, Section, TareLine};
use book_state::State;
use book_words::{Act, Name};

/// The line of the newest day.
pub fn day_line(state: &State) -> Line
    ensures line { result ≡ told.day_line state.now.entries }
    ensures range { IsInRange result }
{
    let _rows = state.len();
    Line::Day(state.day())
}

// The tare of a product on the newest day, in mg.
fn tare_now(state: &State, product: &Name) -> Option<i64>
    ensures tare { result ≡ told.tare_now state.now.entries product.now }
    ensures range { IfSome result IsTare }
{
    let day = state.day()?;
    state.tare(product, day)
}

// The line of a product.
fn product_line(state: &State, product: &Name) -> Option<Line>
    ensures line { result ≡ told.product_line state.now.entries product.now }
    ensures range { IfSome result IsInRange }
{
    let nominal = state.nominal(product)?;
    let unit = state.unit(product)?;
    Some(Line::Product(ProductLine {
        product: *product,
        nominal,
        unit,
        tare: tare_now(state, product),
    }))
}

// The product that an act puts.
fn product_put(act: &Act) -> Option<Name>
    ensures { result ≡ told.product_put act.now }
{
    match act {
        Act::PutProduct { name, .. } => Some(*name),
        _ => None,
    }
}

// Whether a day is still to come.
fn is_to_come(state: &State, day: i32) -> bool
    ensures { result ≡ told.is_to_come state.now.entries day }
{
    match state.day() {
        Some(newest) => newest < day,
        None => true,
    }
}

// Whether a product has this tare on a day.
fn has_tare(state: &State, product: &Name, day: i32, tare: &i64) -> bool
    ensures { result ≡ told.has_tare state.now.entries product.now day tare.now }
{
    match state.tare(product, day) {
        Some(other) => other == *tare,
        None => false,
    }
}

// The line of a tare to come, where an act puts it.
fn tare_line(state: &State, act: &Act) -> Option<Line>
    requires range { is_act_in_range act.now ≡ true }
    ensures line { result ≡ told.tare_line state.now.entries act.now }
    ensures range { IfSome result IsInRange }
{
    match act {
        Act::PutTare { product, day, tare } => coming_line(state, product, *day, tare),
        _ => None,
    }
}

// The line of a tare that is put, where it is one to come.
fn coming_line(state: &State, product: &Name, day: i32, tare: &i64) -> Option<Line>
    requires day { IsDay day }
    requires tare { IsTare tare.now }
    ensures line { result ≡ told.coming_line state.now.entries product.now day tare.now }
    ensures range { IfSome result IsInRange }
{
    if is_to_come(state, day) && has_tare(state, product, day, tare) {
        Some(Line::Tare(TareLine {
            product: *product,
            day,
            tare: *tare,
        }))
    } else {
        None
    }
}

// The line of a batch.
fn batch_line(state: &State, batch: &Name) -> Option<Line>
    ensures line { result ≡ told.batch_line state.now.entries batch.now }
    ensures range { IfSome result IsInRange }
{
    let product = state.product(batch)?;
    let now = state.state(batch)?;
    Some(Line::Batch(BatchLine {
        batch: *batch,
        product,
        state: now,
        population: state.population_count(batch),
    }))
}

// The batch that an act opens.
fn batch_opened(act: &Act) -> Option<Name>
    ensures { result ≡ batch_opened act.now }
{
    match act {
        Act::OpenBatch { batch, .. } => Some(*batch),
        _ => None,
    }
}

/// The line that an act has among those of a section, where it has one.
pub fn act_line(section: Section, state: &State, act: &Act) -> Option<Line>
    requires range { is_act_in_range act.now ≡ true }
    ensures line { result ≡ told.act_line section state.now.entries act.now }
    ensures range { IfSome result IsInRange }
{
    match section {
        Section::Products => product_line(state, &product_put(act)?),
        Section::Tares => tare_line(state, act),
        Section::Batches => batch_line(state, &batch_opened(act)?),
    }
}

/// The line of a lane, where it has a batch.
pub fn lane_line(state: &State, lane: u8) -> Option<Line>
    ensures line { result ≡ told.lane_line state.now.entries lane }
    ensures range { IfSome result IsInRange }
{
    let batch = state.lane(lane)?;
    Some(Line::Lane(LaneLine { lane, batch }))
}

/// The line of a desk, 101 to 164, where it has asked for an act that was accepted.
pub fn desk_line(state: &State, desk: u16) -> Option<Line>
    requires desk { is_desk desk ≡ true }
    ensures line { result ≡ told.desk_line state.now.entries desk }
    ensures range { IfSome result IsInRange }
{
    let number = state.newest_row(desk)?;
    let entry = state.entry(number)?;
    Some(Line::Desk(DeskLine {
        desk,
        request: entry.request,
    }))
}

/// The line of the rows, of a book that has room for so many.
pub fn rows_line(state: &State, limit: u32) -> Line
    ensures line { result ≡ told.rows_line state.now.entries limit }
    ensures range { IsInRange result }
{
    let rows = state.len();
    Line::Rows(RowsLine {
        rows,
        left: limit.saturating_sub(rows),
    })
}
