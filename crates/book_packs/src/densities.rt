ghost use Rattle.std.specs.Prelude.{◌≡◌, ℤ, pos, ◌≤ℤ◌};
ghost use Rattle.annex_tables.specs.Errors.{IsNominal, limits_of};
ghost use Rattle.book_packs.specs.Densities.{limit_at, limits_at};

use annex_tables::{Limits, MAX_NOMINAL, limits};
use reference_test::UNIT_DENSITY;

/// The limits in mg of a nominal quantity at a density in mg a litre. A net in mg is below one of
/// them exactly where a million times it is below the density times the limit that the tables give.
pub fn limits_by_density(density: u32, nominal: i64) -> Limits
    requires { IsNominal nominal }
    ensures { result ≡ limits_at density (limits_of nominal) }
{
    let Ok(limits) = limits(nominal) else {
        unreachable!()
    };
    Limits {
        t1: limit_at(density, limits.t1),
        t2: limit_at(density, limits.t2),
        tne: limit_at(density, limits.tne),
    }
}

// A limit in mg at a density, rounded up to whole mg.
fn limit_at(density: u32, limit: i64) -> i64
    requires least { pos 0 ≤ℤ limit }
    requires greatest { limit ≤ℤ MAX_NOMINAL }
    ensures { result ≡ limit_at density limit }
{
    let product = u64::from(density) * limit as u64;
    product.div_ceil(u64::from(UNIT_DENSITY)) as i64
}
