ghost use Rattle.std.specs.Prelude.{List, [], ◌∷◌, MatchResult};
ghost use Rattle.book_words.specs.declared.act.Entry.{Entry};
ghost use Rattle.book_words.specs.declared.act.Prior.TheVariants.{Nothing};
ghost use Rattle.book_words.specs.declared.name.Name as names;
ghost use Rattle.lane_worker.specs.Asks.{lane_ask};
ghost use Rattle.lane_worker.specs.Works.{Site, HasAdded, BreaksAt, IsWork};
ghost use Rattle.lane_worker.specs.Steps.{with_caller, IsCalm, StopsFound, Weighs, broken_end};

use crate::asking::{ask_act, ask_lane, stop_told};
use book_words::{Act, AskError, Caller, Name, Prior};

// Stops the lane where it was found with a batch.
fn stop_found<C: Caller>(caller: &mut C, number: u8, found: Option<Prior>) -> Result<(), AskError>
    ensures stopped { (first : C) (batch : names.Name) (asked : List Entry)
        → HasAdded (C.known first) (C.known caller.old) asked []
        → IsCalm (C.known first) (C.known caller.old)
        → C.later first caller.old (lane_ask number ∷ [])
        → StopsFound (C.later first caller.new) (BreaksAt C.Caller first caller.new)
        (C.known first) (C.known caller.new) number batch found asked result }
{
    if let Some(prior) = found {
        ask_act(
            caller,
            Act::StopLane {
                lane: number,
                prior,
            },
        )?;
    }
    Ok(())
}

// Stops the lane where it has a batch, and starts it for this one.
pub(crate) fn start_lane<C: Caller>(caller: &mut C, number: u8, batch: Name) -> Result<(), AskError>
    ensures begun { (now : Site) → MatchResult result
        (λ _. Weighs (C.later caller.old caller.new) (with_caller now (C.known caller.old))
        (with_caller now (C.known caller.new)) number batch
        (record { opened = 0; prior = Nothing }))
        (λ why. IsWork (C.later caller.old caller.new) (BreaksAt C.Caller caller.old caller.new)
        (with_caller now (C.known caller.old)) (with_caller now (C.known caller.new))
        number batch (broken_end 0 why)) }
{
    let answered = ask_lane(caller, number)?;
    stop_found(caller, number, stop_told(&answered.reply))?;
    ask_act(
        caller,
        Act::StartLane {
            lane: number,
            batch,
        },
    )?;
    Ok(())
}
