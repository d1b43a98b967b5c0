ghost use Rattle.std.specs.Prelude.{◌≡◌, ◌≤◌};
ghost use Rattle.pack_judge.specs.Judge.{class_of, signal_of};

use crate::types::{Cause, Class, Signal};
use annex_tables::{Limits, MAX_POPULATION};

/// The class of a net in mg (Annex I). Equality with a limit is not below it; a net may be
/// negative.
pub fn class(net: i64, limits: &Limits) -> Class
    ensures { result ≡ class_of net limits.now }
{
    if net < limits.t2 {
        Class::Inadequate
    } else if net < limits.t1 {
        Class::NonStandard
    } else {
        Class::Standard
    }
}

/// The signal of a new net in mg, in a batch with `n` packs in its population (at most
/// `MAX_POPULATION`), `nonstandard` of them (at most `n`) with a net below `t1`, inadequate ones
/// among them; `held` says that some are inadequate. The first cause that holds is given.
///
/// The two limits are those of Annex I. That non-standard packs are let through while they are at
/// most one in forty is this project's own rule for packers.
pub fn signal(net: i64, limits: &Limits, held: bool, n: u32, nonstandard: u32) -> Signal
    requires counted { nonstandard ≤ n }
    requires limited { n ≤ MAX_POPULATION }
    ensures { result ≡ signal_of net limits.now held n nonstandard }
{
    if held {
        return Signal::Reject(Cause::Held);
    }
    if n == MAX_POPULATION {
        return Signal::Reject(Cause::Full);
    }
    match class(net, limits) {
        Class::Inadequate => Signal::Reject(Cause::Inadequate),
        Class::NonStandard if 40 * nonstandard > n => Signal::Reject(Cause::Allowance),
        _ => Signal::Pass,
    }
}
