ghost use Rattle.std.specs.Prelude.{◌≡◌, ◌<◌, ◌≤◌, List, ℤ};
ghost use Rattle.annex_tables.specs.Errors.{IsNominal};
ghost use Rattle.reference_test.specs.Means.{sums_of, falls_short_within, mean_accepts};
ghost use Rattle.hall_limits.specs.declared.TheConstants.{MIN_DENSITY, MAX_DENSITY};

use crate::types::Sums;

/// The density in mg a litre at which a microlitre weighs a milligram: that of goods by mass.
pub const UNIT_DENSITY: u32 = 1_000_000;

/// The mean check of Annex II for a nominal quantity in mg, 5 000 to 10 000 000. The rule is that
/// of [`mean_check_at`], at the density of goods by mass.
pub fn mean_check(sums: &Sums, nominal: i64, k1000: u32) -> bool
    requires some { 0 < sums.now.number }
    requires in_range { IsNominal nominal }
    requires part { k1000 ≤ 1000 }
    ensures { (values : List ℤ) → sums.now ≡ sums_of values
        → result ≡ mean_accepts values nominal UNIT_DENSITY k1000 }
{
    mean_check_at(sums, nominal, UNIT_DENSITY, k1000)
}

/// The mean check of Annex II at a density in mg a litre, 500 000 to 2 000 000, for a nominal
/// quantity in microlitres, 5 000 to 10 000 000: the mean of the values is at least the nominal
/// quantity at that density, or falls short by no more than `k1000` thousandths of the standard
/// deviation, with divisor one less than their number. `k1000` is at most 1 000. Only whole numbers
/// are compared, so the answer is exact.
pub fn mean_check_at(sums: &Sums, nominal: i64, density: u32, k1000: u32) -> bool
    requires some { 0 < sums.now.number }
    requires in_range { IsNominal nominal }
    requires least { MIN_DENSITY ≤ density }
    requires greatest { density ≤ MAX_DENSITY }
    requires part { k1000 ≤ 1000 }
    ensures { (values : List ℤ) → sums.now ≡ sums_of values
        → result ≡ mean_accepts values nominal density k1000 }
{
    sums.shortfall(nominal, density) <= 0
        || (sums.number() >= 2 && k1000 > 0 && is_within(sums, nominal, density, k1000))
}

// Whether the values fall short at a density by no more than `k1000` thousandths of the standard
// deviation: both sides squared and freed of their divisors.
fn is_within(sums: &Sums, nominal: i64, density: u32, k1000: u32) -> bool
    requires in_range { IsNominal nominal }
    requires greatest { density ≤ MAX_DENSITY }
    requires part { k1000 ≤ 1000 }
    ensures { (values : List ℤ) → sums.now ≡ sums_of values
        → result ≡ falls_short_within values nominal density k1000 }
{
    let shortfall = sums.shortfall(nominal, density);
    let part = i128::from(k1000);
    let short = (i128::from(sums.number()) - 1) * (shortfall * shortfall);
    short <= 1_000_000 * (part * part) * sums.squared_deviations()
}
