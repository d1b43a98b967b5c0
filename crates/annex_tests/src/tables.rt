use annex_tables::{Limits, Mode, NominalRange, Plan, PlanRefusal, limits, plan, tne};
use std::test::Fail;

// Nominal quantities and their errors: each row of the table at its ends, worked out from Annex I by hand; 333 g and 1 234 g show the
// rounding up.
const ERRORS: [(i64, i64); 16] = [
    (5_000, 500),
    (50_000, 4_500),
    (50_001, 4_500),
    (100_000, 4_500),
    (100_001, 4_600),
    (200_000, 9_000),
    (200_001, 9_000),
    (250_000, 9_000),
    (300_000, 9_000),
    (300_001, 9_100),
    (333_000, 10_000),
    (500_000, 15_000),
    (1_000_000, 15_000),
    (1_000_001, 15_100),
    (1_234_000, 18_600),
    (10_000_000, 150_000),
];

// The first quantity that has another error.
fn wrong_error() -> Option<i64> {
    for (nominal, error) in ERRORS {
        if tne(nominal) != Ok(error) {
            return Some(nominal);
        }
    }
    None
}

// Each row of the tables at its ends, as first, c1, r1, second, c2, r2, mean_n and k1000, from
// Annex II by hand.
const KEPT: [(u32, [u32; 8]); 14] = [
    (1, [1, 0, 1, 0, 0, 0, 1, 0]),
    (39, [39, 0, 1, 0, 0, 0, 39, 0]),
    (40, [40, 1, 2, 0, 0, 0, 40, 0]),
    (79, [79, 1, 2, 0, 0, 0, 79, 0]),
    (80, [80, 2, 3, 0, 0, 0, 80, 0]),
    (99, [99, 2, 3, 0, 0, 0, 99, 0]),
    (100, [30, 1, 3, 30, 4, 5, 30, 503]),
    (500, [30, 1, 3, 30, 4, 5, 30, 503]),
    (501, [50, 2, 5, 50, 6, 7, 50, 379]),
    (3_200, [50, 2, 5, 50, 6, 7, 50, 379]),
    (3_201, [80, 3, 7, 80, 8, 9, 50, 379]),
    (9_999, [80, 3, 7, 80, 8, 9, 50, 379]),
    (10_000, [80, 3, 7, 80, 8, 9, 50, 379]),
    (u32::MAX, [80, 3, 7, 80, 8, 9, 50, 379]),
];

fn in_order(plan: &Plan) -> [u32; 8] {
    [
        plan.first,
        plan.c1,
        plan.r1,
        plan.second,
        plan.c2,
        plan.r2,
        plan.mean_n,
        plan.k1000,
    ]
}

// The first number of kept packs that has another plan.
fn wrong_plan() -> Option<u32> {
    for (n, wanted) in KEPT {
        match plan(n, Mode::Keep) {
            Ok(plan) if in_order(&plan) == wanted => (),
            _ => return Some(n),
        }
    }
    None
}

// The limits of 250 g.
const LIMITS: Limits = Limits {
    t1: 241_000,
    t2: 232_000,
    tne: 9_000,
};

// The plan of a destructive test.
const DESTROYED: [u32; 8] = [20, 1, 2, 0, 0, 0, 20, 640];

#[test]
fn rows_of_the_annexes(rt: HostRuntime) -> Result<(), Fail> {
    assert!(rt; wrong_error().is_none());
    assert!(rt; limits(250_000) == Ok(LIMITS));
    assert!(rt; wrong_plan().is_none());
    assert!(rt; in_order(&plan(100, Mode::Destroy)?) == DESTROYED);
    Ok(())
}

#[test]
fn refusals_in_words(rt: HostRuntime) -> Result<(), Fail> {
    let range = NominalRange.to_string(rt.alloc())?;
    assert!(rt; range.as_str() == "the nominal quantity isn't 5 g to 10 kg");
    let empty = PlanRefusal::Empty.to_string(rt.alloc())?;
    assert!(rt; empty.as_str() == "the batch has no pack");
    let small = PlanRefusal::Small { n: 99 }.to_string(rt.alloc())?;
    assert!(rt; small.as_str() == "a batch of 99 packs is too small for the destructive test");
    Ok(())
}
