ghost use Rattle.std.specs.Prelude.{◌≡◌, ◌↔◌, ◌+◌, ◌<◌, ◌≤◌, Err, IfOk};
ghost use Rattle.annex_tables.specs.Plans.{plan_of, plan_of_all};

use crate::types::{Mode, Plan, PlanRefusal};

// 100 to 500 packs, not destroyed.
const TO_500: Plan = Plan {
    first: 30,
    c1: 1,
    r1: 3,
    second: 30,
    c2: 4,
    r2: 5,
    mean_n: 30,
    k1000: 503,
};

// 501 to 3 200 packs, not destroyed.
const TO_3_200: Plan = Plan {
    first: 50,
    c1: 2,
    r1: 5,
    second: 50,
    c2: 6,
    r2: 7,
    mean_n: 50,
    k1000: 379,
};

// More than 3 200 packs, not destroyed.
const ABOVE_3_200: Plan = Plan {
    first: 80,
    c1: 3,
    r1: 7,
    second: 80,
    c2: 8,
    r2: 9,
    mean_n: 50,
    k1000: 379,
};

// 100 packs or more, destroyed.
const DESTRUCTION: Plan = Plan {
    first: 20,
    c1: 1,
    r1: 2,
    second: 0,
    c2: 0,
    r2: 0,
    mean_n: 20,
    k1000: 640,
};

// All of `n` packs are measured.
fn all_measured(n: u32) -> Plan
    requires { n ≤ 99 }
    ensures { result ≡ plan_of_all n }
{
    Plan {
        first: n,
        c1: n / 40,
        r1: n / 40 + 1,
        second: 0,
        c2: 0,
        r2: 0,
        mean_n: n,
        k1000: 0,
    }
}

/// The plan of the reference test for a batch of `n` packs, by the tables of Annex II.
///
/// For a batch under 100 packs, for which the annex gives no numbers, all packs are measured: at
/// most one in forty may be defective, the mean has to reach the nominal quantity, and there is no
/// destructive test.
pub fn plan(n: u32, mode: Mode) -> Result<Plan, PlanRefusal>
    ensures table { result ≡ plan_of n mode }

    // When there is none.
    ensures empty { (result ≡ Err PlanRefusal.Empty) ↔ (n ≡ 0) }
    ensures small { (result ≡ Err (PlanRefusal.Small n))
        ↔ ((mode ≡ Mode.Destroy) × (0 < n) × (n ≤ 99)) }

    // What a draw and the mean check ask for.
    ensures drawable { IfOk result (λ plan. plan.first + plan.second ≤ n) }
    ensures mean_within_first { IfOk result (λ plan. plan.mean_n ≤ plan.first) }
    ensures mean_of_some { IfOk result (λ plan. (0 < plan.mean_n) × (plan.mean_n ≤ 99)) }
    ensures part_of_a_deviation { IfOk result (λ plan. plan.k1000 ≤ 1000) }
{
    match (mode, n) {
        (_, 0) => Err(PlanRefusal::Empty),
        (Mode::Keep, 1..=99) => Ok(all_measured(n)),
        (Mode::Keep, 100..=500) => Ok(TO_500),
        (Mode::Keep, 501..=3_200) => Ok(TO_3_200),
        (Mode::Keep, _) => Ok(ABOVE_3_200),
        (Mode::Destroy, 1..=99) => Err(PlanRefusal::Small { n }),
        (Mode::Destroy, _) => Ok(DESTRUCTION),
    }
}
