use crate::halls::work;
use book_words::{Act, Name, Prior, Want};
use script_events::Worked;
use std::alloc::Global;
use std::test::Fail;
use store_runs::{Offer, Stop};

// The weight of a good pack, in mg.
const GROSS: i64 = 260_000;

// What the worker asks for at a row, by its number: it stops the lane that runs, starts it, weighs
// and stops it again.
fn act_at(row: u32) -> Option<Act> {
    let batch = Name::new(b"A".as_slice())?;
    match row {
        6 => Some(Act::StopLane {
            lane: 1,
            prior: Prior::Nothing,
        }),
        7 => Some(Act::StartLane { lane: 1, batch }),
        8 => Some(Act::Weigh {
            lane: 1,
            gross: GROSS,
            prior: Prior::Nothing,
        }),
        9 => Some(Act::StopLane {
            lane: 1,
            prior: Prior::Opened,
        }),
        _ => None,
    }
}

// The act that the disk was offered by lane 1 as it failed, where a run stops so.
fn act_offered(worked: &Worked) -> Option<Act> {
    match worked.step {
        Err(Stop::DiskFault(Offer::Asked { by: 1, ask })) => match ask.want {
            Want::Act(act) => Some(act),
            Want::Question(_) => None,
        },
        _ => None,
    }
}

// Whether a run stops at this row where its last call of the disk fails: mounting takes four calls,
// and each row four.
fn stops_at(alloc: Global, row: u32) -> Option<bool> {
    let (worked, rows) = work(alloc, &[row.checked_mul(4)?.checked_add(4)?], GROSS)?;
    Some(act_offered(&worked) == Some(act_at(row)?) && rows.checked_add(1) == Some(row))
}

#[test]
fn each_row_fails(rt: HostRuntime) -> Result<(), Fail> {
    for row in 6..=9u32 {
        assert_eq!(rt; stops_at(rt.alloc(), row), Some(true));
    }
    Ok(())
}

#[test]
fn goes_on(rt: HostRuntime) -> Result<(), Fail> {
    let worked = work(rt.alloc(), &[], GROSS);
    assert_eq!(rt;
        worked.map(|(worked, rows)| (worked.step.is_ok(), worked.end.opened, rows)),
        Some((true, 1, 9))
    );
    Ok(())
}
