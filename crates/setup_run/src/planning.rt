ghost use Rattle.std.specs.Prelude.{◌≡◌, false, Err, IfOk, IfErr, IfSome};
ghost use Rattle.text_streams.specs.Streams.{input_at};
ghost use Rattle.hall_plan.specs.Limits.{IsWithinLimits};
ghost use Rattle.setup_run.specs.declared.planning.NoPlan.TheVariants.{BadPlan};
ghost use Rattle.setup_run.specs.PlanReading.{IsNoPlan, ReadsPlan, ReadsNoPlan};

use disk_core::Source;
use hall_plan::{MAX_PLAN, Plan, PlanError, read_plan};
use std::alloc::Global;
use text_streams::{Unread, read_whole};

/// Why there is no plan.
#[derive(Clone, Copy, PartialEq, Eq)]
pub enum NoPlan {
    /// The input is no plan of so many lanes, or it is longer than a plan may be.
    BadPlan,
    /// The input failed.
    ReadFault,
    /// There was no memory for it.
    NoMemory,
}

impl From<Unread> for NoPlan {
    ghost use Rattle.std.specs.Prelude.{◌≡◌};
    ghost use Rattle.setup_run.specs.PlanReading.{plan_unread};

    ghost from_gives = { λ unread why. why ≡ plan_unread unread };

    fn from(unread: Unread) -> NoPlan {
        match unread {
            Unread::TooLong => NoPlan::BadPlan,
            Unread::Failed => NoPlan::ReadFault,
            Unread::NoMemory => NoPlan::NoMemory,
        }
    }
}

impl From<PlanError> for NoPlan {
    ghost use Rattle.std.specs.Prelude.{◌≡◌};
    ghost use Rattle.setup_run.specs.PlanReading.{plan_refused};

    ghost from_gives = { λ error why. why ≡ plan_refused error };

    fn from(error: PlanError) -> NoPlan {
        match error {
            PlanError::Bad => NoPlan::BadPlan,
            PlanError::NoMemory => NoPlan::NoMemory,
        }
    }
}

/// Reads a plan of `lanes` lanes, which is the whole of an input, of at most `MAX_PLAN` bytes.
///
/// `BadPlan` comes where the input is no such plan; one that is longer isn't read to its end.
/// `ReadFault` comes where the input failed. `NoMemory` says nothing of the input.
pub fn read_whole_plan<S: Source>(alloc: Global, input: &mut S, lanes: u8) -> Result<Plan, NoPlan>
    requires unended { S.ended input.old ≡ false }
    ensures plan { IfOk result (ReadsPlan lanes (input_at S.Source input.old)
        (input_at S.Source input.new)) }
    ensures limits { IfOk result (IsWithinLimits lanes) }
    ensures none { IfErr result (ReadsNoPlan lanes (input_at S.Source input.old)
        (input_at S.Source input.new)) }
    ensures bad { result ≡ Err BadPlan → IfSome (S.left input.old) (IsNoPlan lanes) }
{
    let bytes = read_whole(alloc, input, MAX_PLAN as u32)?;
    let plan = read_plan(alloc, &bytes, lanes)?;
    Ok(plan)
}
