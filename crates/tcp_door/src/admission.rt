ghost use Rattle.std.specs.Prelude.{◌≡◌, ◌↔◌, ◌<◌, is_ok, false, true, IsSome, IsOk, IsErr, IfOk};

use crate::entrance::{Entrance, Visit};
use disk_core::Failed;
use std::io;
use std::io::Eprint;
use std::time::Clock;
use stop_file::StopFile;

/// Leaves a connection, if there is one, and waits for the next, where one is still awaited and
/// nobody asks that the door end.
pub(crate) fn admit<R: Clock + Eprint + Drop>(
    entrance: &mut io::Result<Entrance<R>>,
    stop: &StopFile,
    left: Option<Visit>,
    awaited: u32,
    has_stopped: &mut bool,
) -> Result<Option<Visit>, Failed>
    ensures closed { is_ok entrance.old ≡ false → IsErr result }
    ensures ends { is_ok entrance.old ≡ true → awaited ≡ 0 → IsOk result }
    ensures awaited { IfOk result (λ visit. IsSome visit
        ↔ ((0 < awaited) × (has_stopped.new ≡ false))) }
    ensures stopped { stop.now ≡ false → has_stopped.new ≡ has_stopped.old }
    ensures kept { is_ok entrance.new ≡ is_ok entrance.old }
{
    let Ok(entrance) = entrance else {
        return Err(Failed);
    };
    if let Some(visit) = left {
        entrance.leave(visit);
    }
    if awaited == 0 || *has_stopped {
        entrance.close();
        return Ok(None);
    }
    let visit = entrance.admit(stop)?;
    if visit.is_none() {
        *has_stopped = true;
        entrance.close();
    }
    Ok(visit)
}
