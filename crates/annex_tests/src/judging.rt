use annex_tables::{Limits, MAX_POPULATION};
use pack_judge::{Cause, Class, Signal, class, signal};
use std::test::Fail;

// Those of 250 g: one error is 9 g.
const LIMITS: Limits = Limits {
    t1: 241_000,
    t2: 232_000,
    tne: 9_000,
};

// A net and its class.
const CLASSES: [(i64, Class); 6] = [
    (i64::MIN, Class::Inadequate),
    (231_999, Class::Inadequate),
    (232_000, Class::NonStandard),
    (240_999, Class::NonStandard),
    (241_000, Class::Standard),
    (i64::MAX, Class::Standard),
];

// The first net that has another class.
fn wrong_class() -> Option<i64> {
    for (net, wanted) in CLASSES {
        if class(net, &LIMITS) != wanted {
            return Some(net);
        }
    }
    None
}

// A net, whether its batch is held, how many packs are in it, how many of them are non-standard,
// and the signal.
const SIGNALS: [(i64, bool, u32, u32, Signal); 9] = [
    (250_000, false, 0, 0, Signal::Pass),
    (250_000, true, 10_000, 0, Signal::Reject(Cause::Held)),
    (250_000, false, 10_000, 0, Signal::Reject(Cause::Full)),
    (250_000, false, 9_999, 9_999, Signal::Pass),
    (231_999, false, 1, 1, Signal::Reject(Cause::Inadequate)),
    (232_000, false, 1, 1, Signal::Reject(Cause::Allowance)),
    (240_999, false, 39, 1, Signal::Reject(Cause::Allowance)),
    (240_999, false, 40, 1, Signal::Pass),
    (240_999, false, 0, 0, Signal::Pass),
];

// The first net and number of packs that get another signal.
fn wrong_signal() -> Option<(i64, u32)> {
    for (net, held, n, nonstandard, wanted) in SIGNALS {
        if nonstandard > n || n > MAX_POPULATION {
            return Some((net, n));
        }
        if signal(net, &LIMITS, held, n, nonstandard) != wanted {
            return Some((net, n));
        }
    }
    None
}

#[test]
fn classes_and_signals_at_the_limits(rt: HostRuntime) -> Result<(), Fail> {
    assert!(rt; wrong_class().is_none());
    assert!(rt; wrong_signal().is_none());
    Ok(())
}
