use crate::runs::{Way, run_over};
use book_words::{Act, Entry};
use disk_core::MemorySource;
use hall_plan::Plan;
use memory_hall::{copy, disk_of, rice_acts};
use setup_run::{NoPlan, read_whole_plan};
use std::alloc::{AllocError, Global};

const DAY_OF_RICE: &str = "\
setup = \"\"\"
day 2025-03-03
product rice250 250
tare rice250 2025-03-03 10
open A rice250
\"\"\"
reserve = 1000

[[lane]]
number = 1
batch = \"A\"
";

/// The setup of a day.
pub(crate) const SETUP_OF_RICE: &str = "\
day 2025-03-03
product rice250 250
tare rice250 2025-03-03 10
open A rice250
";

// Whether a script of the hall's own recorded these acts, and no more.
fn records(rows: &[Entry], acts: &[Act]) -> bool {
    if rows.len() != acts.len() {
        return false;
    }
    for (row, act) in rows.iter().zip(acts) {
        if (row.by, row.desk, row.request) != (0, 0, 0) || row.act != *act {
            return false;
        }
    }
    true
}

// Reads a plan of so many lanes, where these reads fail, counted from 1.
fn read(alloc: Global, plan: &[u8], fails: &[u32], lanes: u8) -> Result<Plan, NoPlan> {
    let mut input = MemorySource::new(copy(alloc, plan), copy(alloc, fails));
    read_whole_plan(alloc, &mut input, lanes)
}

// Whether a setup over an empty disk records these acts.
fn sets_up(alloc: Global, setup: &[u8], acts: &[Act]) -> Option<bool> {
    let (way, store) = run_over(alloc, disk_of(alloc, &[], &[]), setup)?;
    let (_, rows) = store.close();
    Some(way == Way::SetUp && records(rows.as_slice(), acts))
}

// Reads the plan of a day, and sets a hall up by it: for how many rows it wants room, and whether
// its rows are right.
fn set_up(alloc: Global) -> Option<(u32, bool)> {
    let [day, product, tare, open, _] = rice_acts()?;
    let plan = read(alloc, DAY_OF_RICE.as_bytes(), &[], 1).ok()?;
    let right = sets_up(alloc, plan.setup.as_bytes(), &[day, product, tare, open])?;
    Some((plan.reserve, right))
}

#[test]
fn a_plan_prepares_a_hall(rt: HostRuntime) -> Result<(), AllocError> {
    assert!(rt; set_up(rt.alloc()) == Some((1_000, true)));
    Ok(())
}

// Why there is no plan of so many lanes, where there is none.
fn refused(alloc: Global, plan: &[u8], fails: &[u32], lanes: u8) -> Option<NoPlan> {
    read(alloc, plan, fails, lanes).err()
}

// A plan, the reads that fail, a number of lanes, and why there is no plan. One read gives the
// whole plan of a day, and the next its end.
static PLANS: [(&str, &[u32], u8, Option<NoPlan>); 6] = [
    (DAY_OF_RICE, &[], 2, Some(NoPlan::BadPlan)),
    ("setup", &[], 0, Some(NoPlan::BadPlan)),
    ("", &[], 0, None),
    (DAY_OF_RICE, &[1], 1, Some(NoPlan::ReadFault)),
    (DAY_OF_RICE, &[2], 1, Some(NoPlan::ReadFault)),
    (DAY_OF_RICE, &[3], 1, None),
];

// The first plan of which something else is said.
fn wrong_plan(alloc: Global) -> Option<usize> {
    for place in 0..PLANS.len() {
        let (plan, fails, lanes, why) = &PLANS[place];
        if refused(alloc, plan.as_bytes(), fails, *lanes) != *why {
            return Some(place);
        }
    }
    None
}

#[test]
fn an_input_is_no_plan(rt: HostRuntime) -> Result<(), AllocError> {
    assert!(rt; wrong_plan(rt.alloc()).is_none());
    Ok(())
}

// Why a comment of so many bytes is no plan without lanes, where it is none.
fn comment_refused(alloc: Global, count: usize) -> Option<Option<NoPlan>> {
    let comment = vec![in alloc; b'#'; count].ok()?;
    Some(refused(alloc, &comment, &[], 0))
}

// Whether 65 536 bytes are a plan, and one more is none.
fn has_65_536_bytes(alloc: Global) -> bool {
    comment_refused(alloc, 65_536) == Some(None)
        && comment_refused(alloc, 65_537) == Some(Some(NoPlan::BadPlan))
}

#[test]
fn a_plan_has_65_536_bytes(rt: HostRuntime) -> Result<(), AllocError> {
    assert!(rt; has_65_536_bytes(rt.alloc()));
    Ok(())
}
