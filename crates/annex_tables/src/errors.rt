ghost use Rattle.std.specs.Prelude.{◌≡◌, ◌↔◌, ◌≤◌, ◌*◌, IfOk, IsOk, pos, unsigned_abs};
ghost use Rattle.annex_tables.specs.Errors.{IsNominal, thousandths_of, error_of, tolerable_error, limits_of};

use crate::types::{Limits, NominalRange};
use crate::{MAX_NOMINAL, MIN_NOMINAL};

// So many thousandths of a quantity in mg, rounded up to the next 100 mg.
fn thousandths(part: u64, quantity: u64) -> u64
    requires small { part ≤ 90 }
    requires in_range { quantity ≤ unsigned_abs MAX_NOMINAL }
    ensures { result ≡ thousandths_of part quantity }
{
    (part * quantity).div_ceil(100_000) * 100
}

fn error_in_row(quantity: u64) -> u64
    requires { quantity ≤ unsigned_abs MAX_NOMINAL }
    ensures value { result ≡ error_of quantity }
    ensures within { unsigned_abs MIN_NOMINAL ≤ quantity → 2 * result ≤ quantity }
{
    match quantity {
        0..=50_000 => thousandths(90, quantity),
        50_001..=100_000 => 4_500,
        100_001..=200_000 => thousandths(45, quantity),
        200_001..=300_000 => 9_000,
        300_001..=500_000 => thousandths(30, quantity),
        500_001..=1_000_000 => 15_000,
        _ => thousandths(15, quantity),
    }
}

// The limits of a nominal quantity in mg that the tables know.
fn limits_in_row(quantity: u64) -> Limits
    requires least { unsigned_abs MIN_NOMINAL ≤ quantity }
    requires greatest { quantity ≤ unsigned_abs MAX_NOMINAL }
    ensures { result ≡ limits_of (pos quantity) }
{
    let tne = error_in_row(quantity);
    Limits {
        t1: (quantity - tne) as i64,
        t2: (quantity - 2 * tne) as i64,
        tne: tne as i64,
    }
}

// The nominal quantity, where the tables know it.
fn known(nominal: i64) -> Result<u64, NominalRange>
    ensures value { IfOk result (λ quantity. nominal ≡ pos quantity) }
    ensures least { IfOk result (λ quantity. unsigned_abs MIN_NOMINAL ≤ quantity) }
    ensures greatest { IfOk result (λ quantity. quantity ≤ unsigned_abs MAX_NOMINAL) }
    ensures in_range { IsOk result ↔ IsNominal nominal }
{
    if nominal < MIN_NOMINAL || nominal > MAX_NOMINAL {
        return Err(NominalRange);
    }
    Ok(nominal as u64)
}

/// The tolerable negative error of a nominal quantity, both in mg, by the table of Annex I. An
/// error that the table gives as a percentage is rounded up to the next 100 mg. `NominalRange`
/// exactly outside 5 000 mg to 10 000 000 mg.
pub fn tne(nominal: i64) -> Result<i64, NominalRange>
    ensures value { IfOk result (λ error. error ≡ tolerable_error nominal) }
    ensures in_range { IsOk result ↔ IsNominal nominal }
{
    let quantity = known(nominal)?;
    Ok(error_in_row(quantity) as i64)
}

/// The limits of a nominal quantity in mg: one and two tolerable negative errors below it.
/// `NominalRange` exactly outside 5 000 mg to 10 000 000 mg.
pub fn limits(nominal: i64) -> Result<Limits, NominalRange>
    ensures value { IfOk result (λ limits. limits ≡ limits_of nominal) }
    ensures in_range { IsOk result ↔ IsNominal nominal }
{
    let quantity = known(nominal)?;
    Ok(limits_in_row(quantity))
}
