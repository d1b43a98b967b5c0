use disk_core::Failed;
use std::time::Clock;

/// The time in ms, since some start of the clock's.
pub(crate) fn moment(clock: &impl Clock) -> Result<u64, Failed> {
    match clock.monotonic() {
        Ok(time) => Ok(u64::try_from(time.as_millis()).unwrap_or(u64::MAX)),
        Err(_) => Err(Failed),
    }
}
