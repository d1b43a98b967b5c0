ghost use Rattle.std.specs.Prelude.{◌≡◌, MatchResult};
ghost use Rattle.book_words.specs.declared.act.Prior.TheVariants.{Nothing};
ghost use Rattle.lane_worker.specs.Works.{site, BreaksAt, IsWork};
ghost use Rattle.lane_worker.specs.Steps.{broken_end};

use crate::asking::ask_act;
use crate::ending::{LaneEnd, LaneStop, ask_stop, weighing_stop};
use crate::lane::Lane;
use crate::progress::Progress;
use crate::starting::start_lane;
use crate::weighing::weigh_packs;
use book_words::{Act, AskError, Caller, Name, Prior};

// Does the work of a lane as long as the book answers.
fn work_lane<C: Caller, L: Lane>(
    caller: &mut C,
    lane: &mut L,
    number: u8,
    batch: Name,
    progress: &mut Progress,
) -> Result<LaneStop, AskError>
    requires unbegun { progress.old ≡ record { opened = 0; prior = Nothing } }
    ensures works { MatchResult result
        (λ stop. IsWork (C.later caller.old caller.new) (BreaksAt C.Caller caller.old caller.new)
        (site C.Caller L.Cell L.Gate caller.old lane.old)
        (site C.Caller L.Cell L.Gate caller.new lane.new) number batch
        (record { opened = progress.new.opened; stop = stop }))
        (λ why. IsWork (C.later caller.old caller.new) (BreaksAt C.Caller caller.old caller.new)
        (site C.Caller L.Cell L.Gate caller.old lane.old)
        (site C.Caller L.Cell L.Gate caller.new lane.new) number batch
        (broken_end progress.new.opened why)) }
{
    start_lane(caller, number, batch)?;
    let ending = weigh_packs(caller, lane, number, progress)?;
    let act = Act::StopLane {
        lane: number,
        prior: progress.prior,
    };
    ask_act(caller, act)?;
    Ok(weighing_stop(ending))
}

/// Works a lane for a batch: it stops the lane where it has a batch, starts it, weighs each pack
/// whose gross the cell gives, and stops it. The gate opens for a pack once the book has its row and
/// says that it passes; the next act of the lane then says what the gate did. Where the lane is
/// found with a reading that is unsettled, nobody knows what the gate did, and the stop says so.
///
/// It ends where the cell gives its end, or something that isn't a weight, or has reached its bound;
/// where the cell or the gate fails; and where the book doesn't answer. It takes no memory.
pub fn run_lane<C: Caller, L: Lane>(
    caller: &mut C,
    lane: &mut L,
    number: u8,
    batch: Name,
) -> LaneEnd
    ensures works { IsWork (C.later caller.old caller.new) (BreaksAt C.Caller caller.old caller.new)
        (site C.Caller L.Cell L.Gate caller.old lane.old)
        (site C.Caller L.Cell L.Gate caller.new lane.new) number batch result }
{
    let mut progress = Progress {
        opened: 0,
        prior: Prior::Nothing,
    };
    match work_lane(caller, lane, number, batch, &mut progress) {
        Ok(stop) => LaneEnd {
            opened: progress.opened,
            stop,
        },
        Err(why) => LaneEnd {
            opened: progress.opened,
            stop: ask_stop(why),
        },
    }
}
