ghost use Rattle.std.specs.Prelude.{◌≡◌, ℕ, pos, nat_le, nat_lt, ◌&&◌, ◌≤ℤ◌, ◌^◌, ◌<◌};
ghost use Rattle.std.specs.Int.Signed.{le_z, lt_z};
ghost use Rattle.pack_judge.specs.Tares.{covers};

use hall_limits::MAX_DAY;
use pack_judge::Span;

/// The days of a span that packs may have, in days since 1970-01-01: from `from` on, before
/// `until`.
#[derive(Clone, Copy)]
pub struct Days {
    pub from: u32,
    pub until: u32,
}

/// The days of a span that packs may have.
pub fn days_of(span: &Span) -> Days
    ensures small { (result.from < 2 ^ 32) × (result.until < 2 ^ 32) }
    ensures covers { (day : ℕ) → pos day ≤ℤ MAX_DAY → covers span.now (pos day)
        ≡ (nat_le result.from day && nat_lt day result.until) }
{
    let until = match span.until {
        None => MAX_DAY as u32 + 1,
        Some(day) => within_days(day),
    };
    Days {
        from: within_days(span.from),
        until,
    }
}

// A day as one that packs may have, or the one after them all.
fn within_days(day: i32) -> u32
    ensures from { (other : ℕ) → pos other ≤ℤ MAX_DAY → nat_le result other ≡ le_z day (pos other) }
    ensures until { (other : ℕ) → pos other ≤ℤ MAX_DAY
        → nat_lt other result ≡ lt_z (pos other) day }
{
    if day < 0 {
        return 0;
    }
    if day > MAX_DAY {
        MAX_DAY as u32 + 1
    } else {
        day as u32
    }
}
