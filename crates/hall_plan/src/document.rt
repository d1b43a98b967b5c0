ghost use Rattle.std.specs.Prelude.{◌≡◌, ◌↔◌, IfOk, IfErr};
ghost use Rattle.toml.specs.Data.{Members};
ghost use Rattle.toml.specs.Errors.{IsMemory};
ghost use Rattle.toml.specs.View.{table_view};
ghost use Rattle.hall_plan.specs.declared.types.PlanError.TheVariants.{Bad, NoMemory};
ghost use Rattle.hall_plan.specs.Documents.{IsDocument, IsShortText};

use crate::types::{MAX_PLAN, PlanError};
use std::alloc::Global;
use toml::Table;
use toml::de::Error;

/// The table of a document of at most `MAX_PLAN` bytes.
pub fn read_document(alloc: Global, bytes: &[u8]) -> Result<Table, PlanError>
    ensures ok { IfOk result (λ table. IsDocument bytes.now (table_view table)) }
    ensures bad { IfErr result (λ why.
        why ≡ Bad → (document : Members) → ¬ IsDocument bytes.now document) }
    ensures no_memory { IfErr result (λ why. why ≡ NoMemory → IsShortText bytes.now) }
{
    if bytes.len() > MAX_PLAN {
        return Err(PlanError::Bad);
    }
    let Ok(text) = str::from_utf8(bytes) else {
        return Err(PlanError::Bad);
    };
    match toml::table_from_str(alloc, text) {
        Ok(table) => Ok(table),
        Err(error) => Err(refusal(&error)),
    }
}

// What a refusal of a document comes to.
fn refusal(error: &Error) -> PlanError
    ensures { (result ≡ NoMemory) ↔ IsMemory error.now }
{
    if error.is_memory() {
        PlanError::NoMemory
    } else {
        PlanError::Bad
    }
}
