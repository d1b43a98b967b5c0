ghost use Rattle.std.specs.Prelude.{◌≡◌, ◌∷◌, [], ℕ, List, not};
ghost use Rattle.std.specs.List.{list_all, list_any};
ghost use Rattle.book_words.specs.declared.act.Entry.{Entry};
ghost use Rattle.book_words.specs.Acts.{same_state};
ghost use Rattle.book_words.specs.Names.{bytes_of, is_name_byte, is_name_shape};
ghost use Rattle.book_words.specs.Refusals.{refused_if, is_within, book_full, day_unset, day_back, product_known, product_unknown, name_shape, nominal_range, day_range, batch_known, batch_unknown, batch_state, lane_busy, lane_idle, no_tare, gross_range, prior_wrong, lanes_running, tare_range, tare_frozen, suits_unit, density_range};
ghost use Rattle.book_verdicts.specs.Lanes.{IsLaneNow};

use annex_tables::{MAX_NOMINAL, MIN_NOMINAL};
use book_verdicts::{LaneNow, State};
use book_words::{Act, BatchState, Name, Prior, Refusal, Unit};
use hall_limits::{MAX_DAY, MAX_DENSITY, MAX_GROSS, MAX_TARE, MIN_DENSITY, NAME_BYTES};

/// A refusal where a test holds.
pub fn refuse_if(test: bool, refusal: Refusal) -> Option<Refusal>
    ensures { result ≡ refused_if test refusal }
{
    if test { Some(refusal) } else { None }
}

/// The list has as many rows as it may have, or more.
pub fn book_full(limit: u32, state: &State) -> Option<Refusal>
    ensures { result ≡ book_full limit state.now.entries }
{
    refuse_if(limit <= state.len(), Refusal::BookFull { limit })
}

/// No day is set.
pub fn day_unset(state: &State) -> Option<Refusal>
    ensures { result ≡ day_unset state.now.entries }
{
    refuse_if(state.day().is_none(), Refusal::DayUnset)
}

/// The new day is before the newest.
pub fn day_back(state: &State, day: i32) -> Option<Refusal>
    ensures { result ≡ day_back state.now.entries day }
{
    match state.day() {
        Some(last) if day < last => Some(Refusal::DayBack { last }),
        _ => None,
    }
}

/// The name is a product.
pub fn product_known(state: &State, name: &Name) -> Option<Refusal>
    ensures { result ≡ product_known state.now.entries name.now }
{
    refuse_if(state.nominal(name).is_some(), Refusal::ProductKnown)
}

/// The product isn't there.
pub fn product_unknown(state: &State, name: &Name) -> Option<Refusal>
    ensures { result ≡ product_unknown state.now.entries name.now }
{
    refuse_if(state.nominal(name).is_none(), Refusal::ProductUnknown)
}

// Whether a byte may stand behind the first of a name.
fn is_in_names(byte: u8) -> bool
    ensures { result ≡ is_name_byte byte }
{
    byte.is_ascii_alphanumeric() || byte == b'-' || byte == b'_' || byte == b'.'
}

// Whether all bytes may stand behind the first of a name.
fn are_in_names(bytes: &[u8]) -> bool
    ensures { result ≡ list_all is_name_byte bytes.now }
{
    bytes.iter().all(|byte| is_in_names(*byte))
}

// Whether some bytes have the shape of a name.
fn has_name_shape(bytes: &[u8]) -> bool
    ensures { result ≡ is_name_shape bytes.now }
{
    match bytes.split_first() {
        None => false,
        Some((first, rest)) => {
            first.is_ascii_alphanumeric() && are_in_names(rest) && rest.len() < NAME_BYTES
        }
    }
}

/// The new name has not the shape of a name.
pub fn name_shape(name: &Name) -> Option<Refusal>
    ensures { result ≡ name_shape name.now }
{
    refuse_if(!has_name_shape(name.as_bytes()), Refusal::NameShape)
}

/// The nominal quantity isn't 5 g to 10 kg, or 5 mL to 10 L.
pub fn nominal_range(nominal: i64) -> Option<Refusal>
    ensures { result ≡ nominal_range nominal }
{
    refuse_if(
        !(MIN_NOMINAL <= nominal && nominal <= MAX_NOMINAL),
        Refusal::NominalRange,
    )
}

/// The day isn't 1970-01-01 to 9999-12-31.
pub fn day_range(day: i32) -> Option<Refusal>
    ensures { result ≡ day_range day }
{
    refuse_if(!(0 <= day && day <= MAX_DAY), Refusal::DayRange)
}

/// The name is a batch.
pub fn batch_known(state: &State, name: &Name) -> Option<Refusal>
    ensures { result ≡ batch_known state.now.entries name.now }
{
    refuse_if(state.product(name).is_some(), Refusal::BatchKnown)
}

/// The batch isn't there.
pub fn batch_unknown(state: &State, name: &Name) -> Option<Refusal>
    ensures { result ≡ batch_unknown state.now.entries name.now }
{
    refuse_if(state.product(name).is_none(), Refusal::BatchUnknown)
}

// Whether a state is one of some.
fn is_allowed(now: BatchState, allowed: &[BatchState]) -> bool
    ensures { result ≡ list_any (same_state now) allowed.now }
{
    allowed.iter().any(|state| now == *state)
}

/// The batch isn't in a state that the act allows.
pub fn batch_state(allowed: &[BatchState], state: &State, batch: &Name) -> Option<Refusal>
    ensures { result ≡ batch_state allowed.now state.now.entries batch.now }
{
    let now = state.state(batch)?;
    refuse_if(
        !is_allowed(now, allowed),
        Refusal::BatchState { state: now },
    )
}

/// The lane has a batch.
pub fn lane_busy(state: &State, lane: u8) -> Option<Refusal>
    ensures { result ≡ lane_busy state.now.entries lane }
{
    let batch = state.lane(lane)?;
    Some(Refusal::LaneBusy { batch })
}

/// The lane has no batch.
pub fn lane_idle(seen: &LaneNow) -> Option<Refusal>
    ensures { (entries : List Entry) (lane : ℕ) → IsLaneNow entries lane seen.now
        → result ≡ lane_idle entries lane }
{
    refuse_if(seen.batch.is_none(), Refusal::LaneIdle)
}

/// There is no tare for the batch's product on the newest day.
pub fn no_tare(state: &State, batch: &Name) -> Option<Refusal>
    ensures { result ≡ no_tare state.now.entries batch.now }
{
    let product = state.product(batch)?;
    let day = state.day()?;
    refuse_if(
        state.tare(&product, day).is_none(),
        Refusal::NoTare { product },
    )
}

/// The gross in mg isn't 0 to 30 kg.
pub fn gross_range(gross: i64) -> Option<Refusal>
    ensures { result ≡ gross_range gross }
{
    refuse_if(!(0 <= gross && gross <= MAX_GROSS), Refusal::GrossRange)
}

/// What the gate did is wanted and isn't said, or is said and isn't wanted.
pub fn prior_wrong(seen: &LaneNow, prior: Prior) -> Option<Refusal>
    ensures { (entries : List Entry) (lane : ℕ) → IsLaneNow entries lane seen.now
        → result ≡ prior_wrong entries lane prior }
{
    let wanted = seen.unsettled.is_some();
    match prior {
        Prior::Nothing => refuse_if(wanted, Refusal::PriorWrong { wanted: true }),
        _ => refuse_if(!wanted, Refusal::PriorWrong { wanted: false }),
    }
}

/// A lane has the batch.
pub fn lanes_running(state: &State, batch: &Name) -> Option<Refusal>
    ensures { result ≡ lanes_running state.now.entries batch.now }
{
    let lane = state.lane_running(batch)?;
    Some(Refusal::LanesRunning { lane })
}

/// The tare in mg isn't 0 to 5 kg.
pub fn tare_range(tare: i64) -> Option<Refusal>
    ensures { result ≡ tare_range tare }
{
    refuse_if(!(0 <= tare && tare <= MAX_TARE), Refusal::TareRange)
}

/// A reading of a closed batch would get another tare.
pub fn tare_frozen(state: &State, product: &Name, day: i32, tare: i64) -> Option<Refusal>
    ensures { result ≡ tare_frozen state.now.entries (Act.PutTare product.now day tare) }
{
    let batch = state.frozen(product, day, tare)?;
    Some(Refusal::TareFrozen { batch })
}

// Whether a density in mg a litre suits a unit.
fn suits(unit: Unit, density: u32) -> bool
    ensures { result ≡ suits_unit unit density }
{
    match unit {
        Unit::Mass => density == 0,
        Unit::Volume => MIN_DENSITY <= density && density <= MAX_DENSITY,
    }
}

/// The density in mg a litre doesn't suit the product.
pub fn density_range(state: &State, product: &Name, density: u32) -> Option<Refusal>
    ensures { result ≡ density_range state.now.entries product.now density }
{
    let unit = state.unit(product)?;
    refuse_if(!suits(unit, density), Refusal::DensityRange)
}
