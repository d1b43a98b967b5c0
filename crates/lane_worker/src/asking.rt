ghost use Rattle.std.specs.Prelude.{◌≡◌, ◌<◌, ◌≤◌, [], ◌∷◌, length, OnOk};
ghost use Rattle.hall_limits.specs.declared.TheConstants.{MAX_ROWS};
ghost use Rattle.book_words.specs.Callers.{IsAsked};
ghost use Rattle.lane_worker.specs.Asks.{act_ask, lane_ask};
ghost use Rattle.lane_worker.specs.Replies.{pack_told, stop_told};

use book_words::{Act, Answered, Ask, AskError, Caller, Prior, Question, Reply, Want};
use pack_judge::Signal;

// Asks for an act of a lane.
pub(crate) fn ask_act<C: Caller>(caller: &mut C, act: Act) -> Result<Answered, AskError>
    ensures asked { IsAsked (C.known caller.old) (C.known caller.new) (act_ask act) result }
    ensures later { C.later caller.old caller.new (act_ask act ∷ []) }
    ensures grows { OnOk result
        (length (C.known caller.old).seen < length (C.known caller.new).seen) }
    ensures few { length (C.known caller.new).seen ≤ MAX_ROWS }
{
    let ask = Ask {
        desk: 0,
        request: 0,
        want: Want::Act(act),
    };
    caller.ask(&ask)
}

// Asks what a lane does.
pub(crate) fn ask_lane<C: Caller>(caller: &mut C, number: u8) -> Result<Answered, AskError>
    ensures asked { IsAsked (C.known caller.old) (C.known caller.new) (lane_ask number) result }
    ensures later { C.later caller.old caller.new (lane_ask number ∷ []) }
{
    let ask = Ask {
        desk: 0,
        request: 0,
        want: Want::Question(Question::Lane { lane: number }),
    };
    caller.ask(&ask)
}

// What the stop of a lane says of the gate, where the lane is told to have a batch.
pub(crate) fn stop_told(reply: &Reply) -> Option<Prior>
    ensures { result ≡ stop_told reply.now }
{
    match reply {
        Reply::LaneIs(view) => match (view.batch, view.unsettled) {
            (None, _) => None,
            (Some(_), None) => Some(Prior::Nothing),
            (Some(_), Some(_)) => Some(Prior::Unknown),
        },
        _ => None,
    }
}

// The number of the pack that is told to have passed.
pub(crate) fn pack_told(reply: &Reply) -> Option<u32>
    ensures { result ≡ pack_told reply.now }
{
    match reply {
        Reply::Judged {
            row,
            signal: Signal::Pass,
        } => Some(*row),
        _ => None,
    }
}
