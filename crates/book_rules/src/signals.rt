ghost use Rattle.std.specs.Prelude.{◌≡◌, ◌≤ℤ◌, ◌-ℤ◌, IfSome, None, pos, option_map};
ghost use Rattle.std.specs.Option.{unwrap_or};
ghost use Rattle.hall_limits.specs.declared.TheConstants.{MAX_GROSS, MAX_TARE};
ghost use Rattle.book_words.specs.Acts.{lane_batch};
ghost use Rattle.book_words.specs.Refusals.{refusals_of, first_refusal};
ghost use Rattle.book_words.specs.Signals.{recorded_signal, judged_signal};
ghost use Rattle.book_verdicts.specs.Lanes.{IsLaneNow, IsSeen};

use book_verdicts::{LaneNow, State};
use book_words::{Act, Prior};
use pack_judge::{Signal, signal};

// The net of a gross on a lane on the newest day, in mg.
fn net_on(seen: &LaneNow, gross: i64) -> i64
    requires least { pos 0 ≤ℤ gross }
    requires greatest { gross ≤ℤ MAX_GROSS }
    requires tare { IfSome seen.now.tare (λ tare. (pos 0 ≤ℤ tare) × (tare ≤ℤ MAX_TARE)) }
    ensures { result ≡ gross -ℤ unwrap_or seen.now.tare (pos 0) }
{
    gross - seen.tare.unwrap_or(0)
}

// The signal of a gross on a lane, where it has a batch.
fn judge(state: &State, seen: &LaneNow, lane: u8, gross: i64, prior: Prior) -> Option<Signal>
    requires least { pos 0 ≤ℤ gross }
    requires greatest { gross ≤ℤ MAX_GROSS }
    requires seen { IsLaneNow state.now.entries lane seen.now }
    ensures { result ≡ option_map
        (judged_signal state.now.entries (Act.Weigh lane gross prior) gross)
        (lane_batch state.now.entries lane) }
{
    let met = state.met(seen, lane, prior)?;
    Some(signal(
        net_on(seen, gross),
        &met.limits,
        met.inadequate > 0,
        met.population,
        met.nonstandard,
    ))
}

/// The signal that is recorded with an act that no rule refuses: a weighing gets one in the batch
/// of its lane, any other act has none.
pub fn recorded_signal(state: &State, seen: &LaneNow, act: &Act) -> Option<Signal>
    requires seen { IsSeen state.now.entries act.now seen.now }
    requires allowed { first_refusal (refusals_of state.now.entries act.now) ≡ None }
    ensures { result ≡ recorded_signal state.now.entries act.now }
{
    let Act::Weigh { lane, gross, prior } = act else {
        return None;
    };
    judge(state, seen, *lane, *gross, *prior)
}
