use import_table::{ImportError, ImportReader};
use script_lines::{Command, Verb};
use std::alloc::Global;

/// A command `day DATE` of a desk: the desk, the request and the day.
pub type DayOfDesk = (u16, u32, i32);

/// Whether an import has these commands and no more. An error that ends it has to come behind all
/// of them, as its number tells.
pub fn has_days(alloc: Global, import: &[u8], days: &[DayOfDesk]) -> Result<bool, ImportError> {
    let mut reader = ImportReader::new(alloc, import)?;
    for (desk, request, day) in days {
        let command = Command {
            desk: *desk,
            request: *request,
            verb: Verb::Day { day: *day },
        };
        if reader.next()? != Some(command) {
            return Ok(false);
        }
    }
    Ok(reader.next()?.is_none())
}
