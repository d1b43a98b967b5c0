//! The tables of errors and plans, read anew.

use annex_tables::{Mode, Plan};

// So many tenths of a percent of a quantity, rounded up to the next 100.
fn tenths_of_percent(tenths: i64, nominal: i64) -> i64 {
    let exact = tenths.wrapping_mul(nominal);
    let hundreds = exact / 100_000;
    if exact % 100_000 == 0 {
        hundreds.wrapping_mul(100)
    } else {
        hundreds.wrapping_add(1).wrapping_mul(100)
    }
}

/// The tolerable negative error of a nominal quantity, in mg or microlitres like it.
pub fn error_of(nominal: i64) -> i64 {
    if nominal <= 50_000 {
        tenths_of_percent(90, nominal)
    } else if nominal <= 100_000 {
        4_500
    } else if nominal <= 200_000 {
        tenths_of_percent(45, nominal)
    } else if nominal <= 300_000 {
        9_000
    } else if nominal <= 500_000 {
        tenths_of_percent(30, nominal)
    } else if nominal <= 1_000_000 {
        15_000
    } else {
        tenths_of_percent(15, nominal)
    }
}

// A row of the table of plans, in its order.
fn row(cells: [u32; 8]) -> Plan {
    let [first, c1, r1, second, c2, r2, mean_n, k1000] = cells;
    Plan {
        first,
        c1,
        r1,
        second,
        c2,
        r2,
        mean_n,
        k1000,
    }
}

/// The plan of the test of a batch with so many packs in its population.
pub fn plan_of(many: u32, mode: Mode) -> Plan {
    if mode == Mode::Destroy {
        row([20, 1, 2, 0, 0, 0, 20, 640])
    } else if many <= 99 {
        let c1 = many / 40;
        row([many, c1, c1.saturating_add(1), 0, 0, 0, many, 0])
    } else if many <= 500 {
        row([30, 1, 3, 30, 4, 5, 30, 503])
    } else if many <= 3_200 {
        row([50, 2, 5, 50, 6, 7, 50, 379])
    } else {
        row([80, 3, 7, 80, 8, 9, 50, 379])
    }
}
