//! What comes before the jobs.
ghost use Rattle.std.specs.Prelude.{◌≡◌, ◌≤◌, false, IfErr, IfOk};
ghost use Rattle.hall_limits.specs.declared.TheConstants.{MAX_LANE};
ghost use Rattle.book_store.specs.Stores.{IsSound};
ghost use Rattle.text_streams.specs.Streams.{input_at};
ghost use Rattle.serve_run.specs.Preparing.{unplanned_stop, IsSetUpFor, StopsPlan};
ghost use Rattle.serve_run.specs.Preparing.{IsPreparedFor, IsUnpreparedFor};

use book_store::Store;
use disk_core::{Disk, Source};
use hall_plan::{Plan, PlannedLanes};
use job_reports::ServeStop;
use setup_run::{NoPlan, SetupNotices, read_whole_plan, run_setup};
use std::alloc::Global;
use store_runs::Stop;

/// A store that is prepared for its jobs, and the lanes of the plan.
pub struct Prepared<D: Disk> {
    pub store: Store<D>,
    pub lanes: PlannedLanes,
}

/// A store over which no job runs, and why.
pub struct Unprepared<D: Disk> {
    pub store: Store<D>,
    pub stop: ServeStop,
}

// How `serve` stops where there is no plan.
fn unplanned_stop(why: NoPlan) -> ServeStop
    ensures { result ≡ unplanned_stop why }
{
    match why {
        NoPlan::BadPlan => ServeStop::BadPlan,
        NoPlan::ReadFault => ServeStop::Early(Stop::ReadFault),
        NoPlan::NoMemory => ServeStop::Early(Stop::NoMemory),
    }
}

// Asks the setup of a plan, and makes room for its rows.
fn set_up<D: Disk, N: SetupNotices>(
    store: Store<D>,
    plan: Plan,
    notices: &mut N,
) -> Result<Prepared<D>, Unprepared<D>>
    requires sound { IsSound D.Disk store }
    ensures ready { IfOk result (IsSetUpFor D.Disk store plan) }
    ensures stops { IfErr result (λ left. StopsPlan D.Disk store plan left.store left.stop) }
{
    match run_setup(store, plan.setup.as_bytes(), notices) {
        Ok(mut store) => match store.reserve(plan.reserve) {
            Ok(()) => Ok(Prepared {
                store,
                lanes: plan.lanes,
            }),
            Err(_) => Err(Unprepared {
                store,
                stop: ServeStop::Early(Stop::NoMemory),
            }),
        },
        Err(end) => Err(Unprepared {
            store: end.store,
            stop: ServeStop::Early(end.stop),
        }),
    }
}

/// Reads the plan that the whole input is, asks its setup, and makes room for its rows.
pub fn prepare<S: Source, N: SetupNotices, D: Disk>(
    alloc: Global,
    store: Store<D>,
    input: &mut S,
    notices: &mut N,
    lanes: u8,
) -> Result<Prepared<D>, Unprepared<D>>
    requires unended { S.ended input.old ≡ false }
    requires sound { IsSound D.Disk store }
    ensures prepared { IfOk result (IsPreparedFor D.Disk store lanes
        (input_at S.Source input.old) (input_at S.Source input.new)) }
    ensures unprepared { IfErr result (IsUnpreparedFor D.Disk store lanes
        (input_at S.Source input.old) (input_at S.Source input.new)) }
{
    match read_whole_plan(alloc, input, lanes) {
        Ok(plan) => set_up(store, plan, notices),
        Err(why) => Err(Unprepared {
            store,
            stop: unplanned_stop(why),
        }),
    }
}
