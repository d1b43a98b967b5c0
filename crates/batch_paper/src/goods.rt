ghost use Rattle.std.specs.Prelude.{◌≡◌, ◌≤◌, Some, length, pos};
ghost use Rattle.std.specs.Option.{option_map_or, unwrap_or};
ghost use Rattle.hall_limits.specs.declared.TheConstants.{MAX_ROWS};
ghost use Rattle.book_words.specs.Acts.{product_of};
ghost use Rattle.book_words.specs.Classes.{density_of_batch};
ghost use Rattle.book_words.specs.Readings.{tare_of_batch};
ghost use Rattle.batch_paper.specs.Written.{closing_row, goods_of, tare_for};

use crate::words::closing_place;
use book_state::State;
use book_words::{Name, Unit};
use pack_judge::DatedTare;
use paper_form::Goods;
use reference_test::UNIT_DENSITY;

// The row of the entry that closes a batch; 0 where there is none.
fn closing_row(state: &State, batch: &Name) -> u32
    ensures { result ≡ closing_row state.now.entries batch.now }
{
    let _few = state.len(); // so that a place of its list is known to fit
    match closing_place(state.entries(), batch) {
        Some(place) => place as u32 + 1,
        None => 0,
    }
}

// The density in mg a litre that counts for a batch of a product.
fn density_of(state: &State, batch: &Name, product: &Name) -> u32
    requires { product_of state.now.entries batch.now ≡ Some product.now }
    ensures { result ≡ density_of_batch state.now.entries batch.now }
{
    match state.unit(product) {
        Some(Unit::Volume) => state.density(batch).unwrap_or(0),
        _ => UNIT_DENSITY,
    }
}

/// The goods of a batch of a product.
pub fn goods_of(state: &State, batch: &Name, product: &Name) -> Goods
    requires { product_of state.now.entries batch.now ≡ Some product.now }
    ensures { result ≡ goods_of state.now.entries batch.now product.now }
{
    Goods {
        batch: *batch,
        product: *product,
        nominal: state.nominal(product).unwrap_or(0),
        unit: state.unit(product).unwrap_or(Unit::Mass),
        density: density_of(state, batch, product),
        row: closing_row(state, batch),
    }
}

// The tare of a batch's product on a day.
fn tare_of_batch(state: &State, batch: &Name, day: i32) -> Option<i64>
    ensures { result ≡ tare_of_batch state.now.entries batch.now day }
{
    let product = state.product(batch)?;
    state.tare(&product, day)
}

/// The tare of a batch's product on a day, as the tares now are; 0 where there is none.
pub fn tare_for(state: &State, batch: &Name, day: i32) -> DatedTare
    ensures { result ≡ tare_for state.now.entries batch.now day }
{
    DatedTare {
        day,
        tare: tare_of_batch(state, batch, day).unwrap_or(0),
    }
}
