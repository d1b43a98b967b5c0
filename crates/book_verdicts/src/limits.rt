ghost use Rattle.std.specs.Prelude.{◌≡◌, ◌≤◌, ◌≤ℤ◌, true, is_some};
ghost use Rattle.annex_tables.specs.declared.TheConstants.{MIN_NOMINAL, MAX_NOMINAL};
ghost use Rattle.hall_limits.specs.declared.TheConstants.{MIN_DENSITY, MAX_DENSITY};
ghost use Rattle.book_words.specs.Acts.{product_of};
ghost use Rattle.book_words.specs.Classes.{nominal_of_batch, density_of_batch};

use book_state::State;
use book_words::{Name, Unit};
use reference_test::UNIT_DENSITY;

/// The nominal quantity of a batch that is there, in mg or microlitres by its unit.
pub fn nominal_of_batch(state: &State, batch: &Name) -> i64
    requires known { is_some (product_of state.now.entries batch.now) ≡ true }
    ensures value { result ≡ nominal_of_batch state.now.entries batch.now }
    ensures least { MIN_NOMINAL ≤ℤ result }
    ensures greatest { result ≤ℤ MAX_NOMINAL }
{
    let Some(product) = state.product(batch) else {
        unreachable!()
    };
    let Some(nominal) = state.nominal(&product) else {
        unreachable!()
    };
    nominal
}

/// The density in mg a litre that counts for a batch that is there: the recorded one for goods by
/// volume, and the one at which nothing changes for goods by mass.
pub fn density_of_batch(state: &State, batch: &Name) -> u32
    requires known { is_some (product_of state.now.entries batch.now) ≡ true }
    ensures value { result ≡ density_of_batch state.now.entries batch.now }
    ensures least { MIN_DENSITY ≤ result }
    ensures greatest { result ≤ MAX_DENSITY }
{
    let Some(product) = state.product(batch) else {
        unreachable!()
    };
    let Some(density) = state.density(batch) else {
        unreachable!()
    };
    match state.unit(&product) {
        Some(Unit::Volume) => density,
        _ => UNIT_DENSITY,
    }
}
