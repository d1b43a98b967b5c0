ghost use Rattle.std.specs.Prelude.{◌≡◌, ℕ, None};
ghost use Rattle.book_words.specs.declared.act.Unit as units;
ghost use Rattle.book_words.specs.Desks.{desk_number};
ghost use Rattle.book_words.specs.Refusals.{refusals_of, first_refusal, refusal_of};
ghost use Rattle.book_verdicts.specs.Lanes.{IsLaneNow, IsSeen};

use crate::desks::refuse_request;
use crate::{checks, samples};
use annex_tables::Mode;
use book_verdicts::{LaneNow, State, lane_number};
use book_words::{Act, Ask, BatchState, Name, Prior, Refusal};
use pack_judge::Pile;

// A new day.
fn refuse_day(state: &State, day: i32) -> Option<Refusal>
    ensures { result ≡ first_refusal (refusals_of state.now.entries (Act.NewDay day)) }
{
    checks::day_back(state, day).or(checks::day_range(day))
}

// A product.
fn refuse_product(state: &State, name: &Name, nominal: i64) -> Option<Refusal>
    ensures { (unit : units.Unit) → result ≡ first_refusal (refusals_of state.now.entries
        (Act.PutProduct name.now nominal unit)) }
{
    checks::day_unset(state)
        .or(checks::product_known(state, name))
        .or(checks::name_shape(name))
        .or(checks::nominal_range(nominal))
}

// A tare.
fn refuse_tare(state: &State, product: &Name, day: i32, tare: i64) -> Option<Refusal>
    ensures { result ≡ first_refusal (refusals_of state.now.entries
        (Act.PutTare product.now day tare)) }
{
    checks::day_unset(state)
        .or(checks::product_unknown(state, product))
        .or(checks::day_range(day))
        .or(checks::tare_range(tare))
        .or(checks::tare_frozen(state, product, day, tare))
}

// The opening of a batch.
fn refuse_opening(state: &State, batch: &Name, product: &Name, density: u32) -> Option<Refusal>
    ensures { result ≡ first_refusal (refusals_of state.now.entries
        (Act.OpenBatch batch.now product.now density)) }
{
    checks::day_unset(state)
        .or(checks::product_unknown(state, product))
        .or(checks::name_shape(batch))
        .or(checks::batch_known(state, batch))
        .or(checks::density_range(state, product, density))
}

// The start of a lane.
fn refuse_start(state: &State, lane: u8, batch: &Name) -> Option<Refusal>
    ensures { result ≡ first_refusal (refusals_of state.now.entries
        (Act.StartLane lane batch.now)) }
{
    checks::day_unset(state)
        .or(checks::batch_unknown(state, batch))
        .or(checks::batch_state(&[BatchState::Running], state, batch))
        .or(lane_number(lane))
        .or(checks::lane_busy(state, lane))
        .or(checks::no_tare(state, batch))
}

// A weighing.
fn refuse_weighing(
    state: &State,
    seen: &LaneNow,
    lane: u8,
    gross: i64,
    prior: Prior,
) -> Option<Refusal>
    requires { IsLaneNow state.now.entries lane seen.now }
    ensures { result ≡ first_refusal (refusals_of state.now.entries
        (Act.Weigh lane gross prior)) }
{
    checks::day_unset(state)
        .or(lane_number(lane))
        .or(checks::lane_idle(seen))
        .or(checks::gross_range(gross))
        .or(checks::prior_wrong(seen, prior))
}

// The stop of a lane.
fn refuse_stop(state: &State, seen: &LaneNow, lane: u8, prior: Prior) -> Option<Refusal>
    requires { IsLaneNow state.now.entries lane seen.now }
    ensures { result ≡ first_refusal (refusals_of state.now.entries (Act.StopLane lane prior)) }
{
    checks::day_unset(state)
        .or(lane_number(lane))
        .or(checks::lane_idle(seen))
        .or(checks::prior_wrong(seen, prior))
}

// A void.
fn refuse_void(state: &State, pack: u32) -> Option<Refusal>
    ensures { result ≡ first_refusal (refusals_of state.now.entries (Act.Void pack)) }
{
    let allowed = [BatchState::Running, BatchState::Ended];
    checks::day_unset(state)
        .or(samples::pack_state(&allowed, state, pack))
        .or(samples::pack_unknown(state, pack))
        .or(samples::pack_pile(Pile::Passed, state, pack))
        .or(samples::unsettled(state, pack))
}

// The end of a run.
fn refuse_end(state: &State, batch: &Name) -> Option<Refusal>
    ensures { result ≡ first_refusal (refusals_of state.now.entries (Act.EndRun batch.now)) }
{
    checks::day_unset(state)
        .or(checks::batch_unknown(state, batch))
        .or(checks::batch_state(&[BatchState::Running], state, batch))
        .or(checks::lanes_running(state, batch))
}

// The draw of a first sample.
fn refuse_draw(state: &State, batch: &Name, mode: Mode) -> Option<Refusal>
    ensures { (word : ℕ) → result ≡ first_refusal (refusals_of state.now.entries
        (Act.Draw batch.now mode word)) }
{
    checks::day_unset(state)
        .or(checks::batch_unknown(state, batch))
        .or(checks::batch_state(&[BatchState::Ended], state, batch))
        .or(samples::batch_empty(state, batch))
        .or(samples::mode_small(state, batch, mode))
}

// A measurement.
fn refuse_measurement(state: &State, pack: u32, gross: i64, empty: i64) -> Option<Refusal>
    ensures { result ≡ first_refusal (refusals_of state.now.entries
        (Act.Measure pack gross empty)) }
{
    checks::day_unset(state)
        .or(samples::pack_state(&[BatchState::Drawn], state, pack))
        .or(checks::gross_range(gross))
        .or(samples::empty_range(state, pack, empty))
        .or(samples::pack_unknown(state, pack))
        .or(samples::pack_pile(Pile::Sampled, state, pack))
        .or(samples::measured_already(state, pack))
}

// The draw of a second sample.
fn refuse_second(state: &State, batch: &Name) -> Option<Refusal>
    ensures { (word : ℕ) → result ≡ first_refusal (refusals_of state.now.entries
        (Act.DrawSecond batch.now word)) }
{
    checks::day_unset(state)
        .or(checks::batch_unknown(state, batch))
        .or(checks::batch_state(&[BatchState::Drawn], state, batch))
        .or(samples::second_not_needed(state, batch))
        .or(samples::first_wanting(state, batch))
}

// The closing of a batch.
fn refuse_closing(state: &State, batch: &Name) -> Option<Refusal>
    ensures { result ≡ first_refusal (refusals_of state.now.entries (Act.Close batch.now)) }
{
    let allowed = [BatchState::Ended, BatchState::Drawn];
    checks::day_unset(state)
        .or(checks::batch_unknown(state, batch))
        .or(checks::batch_state(&allowed, state, batch))
        .or(samples::not_drawn(state, batch))
        .or(samples::needed_wanting(state, batch))
        .or(samples::second_needed(state, batch))
}

// The act is refused by its own rules.
fn refuse_act(state: &State, seen: &LaneNow, act: &Act) -> Option<Refusal>
    requires { IsSeen state.now.entries act.now seen.now }
    ensures { result ≡ first_refusal (refusals_of state.now.entries act.now) }
{
    match act {
        Act::NewDay { day } => refuse_day(state, *day),
        Act::PutProduct { name, nominal, .. } => refuse_product(state, name, *nominal),
        Act::PutTare { product, day, tare } => refuse_tare(state, product, *day, *tare),
        Act::OpenBatch {
            batch,
            product,
            density,
        } => refuse_opening(state, batch, product, *density),
        Act::StartLane { lane, batch } => refuse_start(state, *lane, batch),
        Act::Weigh { lane, gross, prior } => { refuse_weighing(state, seen, *lane, *gross, *prior) }
        Act::StopLane { lane, prior } => refuse_stop(state, seen, *lane, *prior),
        Act::Void { pack } => refuse_void(state, *pack),
        Act::EndRun { batch } => refuse_end(state, batch),
        Act::Draw { batch, mode, .. } => refuse_draw(state, batch, *mode),
        Act::Measure { pack, gross, empty } => refuse_measurement(state, *pack, *gross, *empty),
        Act::DrawSecond { batch, .. } => refuse_second(state, batch),
        Act::Close { batch } => refuse_closing(state, batch),
    }
}

/// Why an act isn't accepted in a book of `limit` rows, where its desk may ask it: of all refusals
/// that hold, the one with the least number.
pub fn refuse(limit: u32, state: &State, seen: &LaneNow, ask: &Ask, act: &Act) -> Option<Refusal>
    requires desk { desk_number ask.now act.now ≡ None }
    requires seen { IsSeen state.now.entries act.now seen.now }
    ensures { result ≡ refusal_of limit state.now.entries ask.now act.now }
{
    refuse_request(state, ask, act)
        .or(checks::book_full(limit, state))
        .or(refuse_act(state, seen, act))
}
