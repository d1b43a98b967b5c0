ghost use Rattle.std.specs.Prelude.{◌≡◌, ◌≤◌, IfSome, option_map, option_copied};
ghost use Rattle.toml.specs.Data.{get_member};
ghost use Rattle.toml.specs.View.{view, table_view};
ghost use Rattle.hall_plan.specs.Plans.{batch_name, changes_said, in_range, lane_batch};
ghost use Rattle.hall_plan.specs.Plans.{lane_number, planned_lane, reserve_said, setup_said};
ghost use Rattle.hall_plan.specs.Plans.{whole_number};

use crate::types::PlannedLane;
use book_words::Name;
use hall_limits::{MAX_LANE, MAX_ROWS};
use toml::{Table, Value};

/// The script of a plan.
pub fn setup_said(document: &Table) -> Option<&str>
    ensures { option_copied result ≡ setup_said (table_view document.now) }
{
    match value_at(document, "setup") {
        Some(value) => value.as_str(),
        None => Some(""),
    }
}

/// For how many rows a plan makes room.
pub fn reserve_said(document: &Table) -> Option<u32>
    ensures { result ≡ reserve_said (table_view document.now) }
{
    match value_at(document, "reserve") {
        Some(value) => whole_number(value, 0, MAX_ROWS),
        None => Some(0),
    }
}

/// The value at a key of a table.
pub fn value_at<'a>(table: &'a Table, key: &str) -> Option<&'a Value>
    ensures { option_map (λ value. view value.now) result
        ≡ get_member key.now (table_view table.now) }
{
    table.get(key)
}

/// What a table plans for one lane.
pub fn planned_lane(table: &Value) -> Option<PlannedLane>
    ensures { result ≡ planned_lane (view table.now) }
{
    let number = lane_number(table)?;
    let batch = lane_batch(table)?;
    Some(PlannedLane { number, batch })
}

// The number of the lane of a table.
fn lane_number(table: &Value) -> Option<u8>
    ensures { result ≡ lane_number (view table.now) }
{
    let value = table.get("number")?;
    let number = whole_number(value, 1, u32::from(MAX_LANE))?;
    Some(number as u8)
}

// The batch of a table; `None` inside where its lane changes it. A table says one of them.
fn lane_batch(table: &Value) -> Option<Option<Name>>
    ensures { result ≡ lane_batch (view table.now) }
{
    match (table.get("batch"), table.get("changes")) {
        (Some(batch), None) => batch_name(batch),
        (None, Some(changes)) => changes_said(changes),
        _ => None,
    }
}

// A text as the name of the one batch of a lane.
fn batch_name(value: &Value) -> Option<Option<Name>>
    ensures { result ≡ batch_name (view value.now) }
{
    let text = value.as_str()?;
    let name = Name::new(text.as_bytes())?;
    Some(Some(name))
}

// `true` as that a lane has no one batch.
fn changes_said(value: &Value) -> Option<Option<Name>>
    ensures { result ≡ changes_said (view value.now) }
{
    match value.as_bool() {
        Some(true) => Some(None),
        _ => None,
    }
}

// An integer as a number of a range.
fn whole_number(value: &Value, least: u32, greatest: u32) -> Option<u32>
    ensures exact { result ≡ whole_number least greatest (view value.now) }
    ensures within { IfSome result (λ number. number ≤ greatest) }
{
    let number = value.as_integer()?;
    in_range(number, least, greatest)
}

// A number where it is in a range.
fn in_range(number: i64, least: u32, greatest: u32) -> Option<u32>
    ensures exact { result ≡ in_range least greatest number }
    ensures within { IfSome result (λ number. number ≤ greatest) }
{
    let number = u32::try_from(number).ok()?;
    if number < least || number > greatest {
        return None;
    }
    Some(number)
}
