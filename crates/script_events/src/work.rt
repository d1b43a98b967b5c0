ghost use Rattle.std.specs.Prelude.{◌≡◌, ⊤, Option, Some, Result, OnOk};
ghost use Rattle.book_words.specs.declared.act.Ask.{Ask as Asked};
ghost use Rattle.book_words.specs.declared.caller.AskError.{AskError};
ghost use Rattle.book_words.specs.declared.caller.AskError.TheVariants as error;
ghost use Rattle.lane_worker.specs.Endings.{ask_stop, weighing_stop};
ghost use Rattle.lane_worker.specs.declared.ending.WeighingEnd.{WeighingEnd as Ended};
ghost use Rattle.store_runs.specs.Books.{stored_book};
ghost use Rattle.store_runs.specs.Runs.{Goes};
ghost use Rattle.script_events.specs.LaneWorks.{lane_state, step_behind, IsWorked};

use book_words::{Ask, Name};
use disk_core::Disk;
use lane_worker::{Lane, LaneEnd, LaneStop, run_lane};
use store_runs::{Offer, OneCaller, Stop};

/// The end of a lane's work, and how the run that worked it goes on.
#[derive(Clone, Copy)]
pub struct Worked {
    pub end: LaneEnd,
    pub step: Result<(), Stop>,
}

// How a run goes on behind a work: it stops where the disk failed at this ask, and where there was
// no memory.
fn step_behind(failed: Option<Ask>, number: u8, stop: LaneStop) -> Result<(), Stop>
    ensures goes_on { (ending : Ended) → stop ≡ weighing_stop ending → result ≡ Ok tt }
    ensures stops { (next : Asked) (why : AskError) → stop ≡ ask_stop why
        → (why ≡ error.DiskFault → failed ≡ Some next)
        → result ≡ step_behind number next why }
{
    match (stop, failed) {
        (LaneStop::DiskFault, Some(ask)) => Err(Stop::DiskFault(Offer::Asked {
            by: u16::from(number),
            ask,
        })),
        (LaneStop::NoMemory, _) => Err(Stop::NoMemory),
        _ => Ok(()),
    }
}

/// Works the lane of this number for a batch, as `run_lane` does, with a caller that has the book
/// for itself. A run goes on behind it, unless the disk failed or there was no memory: then nothing
/// more is asked.
pub fn work_lane<D: Disk, L: Lane>(
    caller: &mut OneCaller<D>,
    lane: &mut L,
    number: u8,
    batch: Name,
) -> Worked
    requires calm { caller.old.faults ≡ 0 }
    ensures works { IsWorked (stored_book caller.old.store) (stored_book caller.new.store)
        (lane_state L.Cell L.Gate lane.old) (lane_state L.Cell L.Gate lane.new) number batch
        result.end result.step }
    ensures goes { Goes D.Disk result.step caller.old.store caller.new.store }
    ensures calm { OnOk result.step (caller.new.faults ≡ 0) }
{
    caller.turn(u16::from(number));
    let end = run_lane(caller, lane, number, batch);
    let step = step_behind(caller.failed(), number, end.stop);
    Worked { end, step }
}
