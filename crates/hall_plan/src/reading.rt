ghost use Rattle.std.specs.Prelude.{◌≡◌, IfOk, IfErr};
ghost use Rattle.toml.specs.View.{table_view};
ghost use Rattle.hall_plan.specs.declared.types.Plan.{Plan};
ghost use Rattle.hall_plan.specs.declared.types.PlanError.TheVariants.{Bad, NoMemory};
ghost use Rattle.hall_plan.specs.Documents.{IsPlan, IsShortText};
ghost use Rattle.hall_plan.specs.Limits.{IsWithinLimits};
ghost use Rattle.hall_plan.specs.Plans.{plan_said};

use crate::document::read_document;
use crate::lanes::one_for_each;
use crate::setup::Setup;
use crate::types::{Plan, PlanError};
use crate::values::{reserve_said, setup_said};
use std::alloc::{AllocError, Global};
use toml::Table;

/// What a document says as a plan of `lanes` lanes. `Bad` comes only where it is no such plan.
/// `NoMemory` comes only of a UTF-8 text of at most `MAX_PLAN` bytes; it says nothing of the text.
pub fn read_plan(alloc: Global, bytes: &[u8], lanes: u8) -> Result<Plan, PlanError>
    ensures ok { IfOk result (IsPlan lanes bytes.now) }
    ensures limits { IfOk result (IsWithinLimits lanes) }
    ensures bad { IfErr result (λ why.
        why ≡ Bad → (plan : Plan) → ¬ IsPlan lanes bytes.now plan) }
    ensures no_memory { IfErr result (λ why. why ≡ NoMemory → IsShortText bytes.now) }
{
    let document = read_document(alloc, bytes)?;
    match plan_said(alloc, &document, lanes)? {
        Some(plan) => Ok(plan),
        None => Err(PlanError::Bad),
    }
}

// What a document says as a plan of so many lanes.
fn plan_said(alloc: Global, document: &Table, count: u8) -> Result<Option<Plan>, AllocError>
    ensures { IfOk result (λ plan. plan ≡ plan_said count (table_view document.now)) }
{
    let Some(setup) = setup_said(document) else {
        return Ok(None);
    };
    let Some(reserve) = reserve_said(document) else {
        return Ok(None);
    };
    let Some(lanes) = one_for_each(alloc, document, count)? else {
        return Ok(None);
    };
    let setup = Setup::new(alloc, setup)?;
    Ok(Some(Plan {
        setup,
        reserve,
        lanes,
    }))
}
