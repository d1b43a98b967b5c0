ghost use Rattle.std.specs.Prelude.{◌≡◌, IfOk};
ghost use Rattle.std.specs.Option.{option_and_then};
ghost use Rattle.toml.specs.View.{items_view, table_view};
ghost use Rattle.hall_plan.specs.Plans.{are_distinct, lanes_said, one_for_each, planned_lanes};

use crate::lane_list::PlannedLanes;
use crate::types::PlannedLane;
use crate::values::{planned_lane, value_at};
use indexmap::IndexSet;
use std::alloc::{AllocError, Global};
use toml::{Table, Value};

/// The lanes of a document, where there are `count` of them and no number comes twice.
pub fn one_for_each(
    alloc: Global,
    document: &Table,
    count: u8,
) -> Result<Option<PlannedLanes>, AllocError>
    ensures { IfOk result (λ lanes. lanes
        ≡ option_and_then (one_for_each count) (lanes_said (table_view document.now))) }
{
    let Some(lanes) = lanes_said(alloc, document)? else {
        return Ok(None);
    };
    let list = lanes.as_slice();
    if list.len() != usize::from(count) || !are_distinct(alloc, list)? {
        return Ok(None);
    }
    Ok(Some(lanes))
}

// The lanes of a document.
fn lanes_said(alloc: Global, document: &Table) -> Result<Option<PlannedLanes>, AllocError>
    ensures { IfOk result (λ lanes. lanes ≡ lanes_said (table_view document.now)) }
{
    let Some(value) = value_at(document, "lane") else {
        return Ok(Some(PlannedLanes::from(Vec::new(alloc))));
    };
    match value.as_array() {
        Some(tables) => planned_lanes(alloc, tables),
        None => Ok(None),
    }
}

// The lanes of some tables, where each of them plans one.
fn planned_lanes(alloc: Global, tables: &[Value]) -> Result<Option<PlannedLanes>, AllocError>
    ensures { IfOk result (λ lanes. lanes ≡ planned_lanes (items_view tables.now)) }
{
    let mut lanes = Vec::new(alloc);
    for table in tables {
        let Some(lane) = planned_lane(table) else {
            return Ok(None);
        };
        lanes.push(lane)?;
    }
    Ok(Some(PlannedLanes::from(lanes)))
}

// Whether no number comes twice.
fn are_distinct(alloc: Global, lanes: &[PlannedLane]) -> Result<bool, AllocError>
    ensures { IfOk result (λ distinct. distinct ≡ are_distinct lanes.now) }
{
    let mut numbers = IndexSet::new(alloc);
    let mut rest = lanes;
    while let Some((lane, after)) = rest.split_first() {
        let is_new = numbers.insert(lane.number)?;
        if !is_new {
            return Ok(false);
        }
        rest = after;
    }
    Ok(true)
}
